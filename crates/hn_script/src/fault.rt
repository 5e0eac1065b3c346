ghost use Rattle.std.specs.Prelude.{◌≡◌};
ghost use Rattle.hn_script.specs.declared.fault.ParseFault.TheVariants.{NoMemory as OutOfMemory};

use hn_base::NoMemory;
use std::alloc::{AllocError, AllocFailed};
use std::error::Error;
use std::fmt;

/// The first fault of bytes that are no script, or no node file.
#[derive(Clone, Copy, Debug, PartialEq, Eq)]
pub struct ScriptFault {
    /// The line, from 1; 0 if the script as a whole has too many bytes.
    pub line: u32,
    /// 1: the first line is that of no version. 2: the first word is unknown. 3: the count of words is wrong. 4: a word is
    /// malformed or out of range. 5: the line has more than 16,384 bytes. 6: the line has a byte that is none from 20
    /// to 7E in hexadecimal. 15: the script has more than 2^24 bytes.
    pub code: u8,
}

impl fmt::Display for ScriptFault {
    fn fmt<W: fmt::Write>(&self, f: &mut fmt::Formatter<W>) -> fmt::Result {
        let (line, code) = (self.line, self.code);
        write!(f, "line {line} has a fault of code {code}")
    }
}

impl Error for ScriptFault {}

/// Why no script was read.
#[derive(Clone, Copy, Debug, PartialEq, Eq)]
pub enum ParseFault {
    /// The bytes are no script; this is their first fault.
    Script(ScriptFault),
    /// Out of memory, and nothing else.
    NoMemory,
}

impl fmt::Display for ParseFault {
    fn fmt<W: fmt::Write>(&self, f: &mut fmt::Formatter<W>) -> fmt::Result {
        match self {
            ParseFault::Script(fault) => write!(f, "{fault}"),
            ParseFault::NoMemory => write!(f, "{NoMemory}"),
        }
    }
}

impl Error for ParseFault {}

impl From<NoMemory> for ParseFault {
    ghost from_gives = { λ _ fault. fault ≡ OutOfMemory };

    fn from(_error: NoMemory) -> ParseFault {
        ParseFault::NoMemory
    }
}

/// Why a line was not read.
#[derive(Clone, Copy)]
pub enum ReadFault {
    /// The text is no line, by this code.
    Code(u8),
    /// Out of memory, and nothing else.
    NoMemory,
}

impl From<NoMemory> for ReadFault {
    ghost use Rattle.hn_script.specs.declared.fault.ReadFault.TheVariants as read_fault;

    ghost from_gives = { λ _ fault. fault ≡ read_fault.NoMemory };

    fn from(_error: NoMemory) -> ReadFault {
        ReadFault::NoMemory
    }
}
