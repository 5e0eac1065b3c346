ghost use Rattle.std.specs.Prelude.{◌≡◌};

use hn_base::NoMemory;
use std::error::Error;
use std::fmt;

/// There are fewer than 16 bytes. The fault lies at their end.
pub const HEADER_CUT: u8 = 1;

/// The type is not 134. The fault lies at byte 0.
pub const OTHER_TYPE: u8 = 2;

/// The code is not 0. The fault lies at byte 1.
pub const OTHER_CODE: u8 = 3;

/// An option has a length of 0, passes the end, or has only one byte left. The fault lies where the option begins.
pub const OPTION_CUT: u8 = 4;

/// An option of type 3 has a length other than 4. The fault lies where the option begins.
pub const OTHER_SIZE: u8 = 5;

/// A Prefix Information option has a prefix length above 128. The fault lies at that byte.
pub const PREFIX_TOO_LONG: u8 = 6;

/// Why bytes are no Router Advertisement (RFC 4861, sections 4.2 and 4.6.2).
#[derive(Clone, Copy, Debug, PartialEq, Eq)]
pub struct RaFault {
    /// Where the fault lies, in bytes from the beginning of the message.
    pub place: usize,
    /// `HEADER_CUT`, `OTHER_TYPE`, `OTHER_CODE`, `OPTION_CUT`, `OTHER_SIZE` or `PREFIX_TOO_LONG`.
    pub why: u8,
}

impl fmt::Display for RaFault {
    fn fmt<W: fmt::Write>(&self, f: &mut fmt::Formatter<W>) -> fmt::Result {
        let place = self.place;
        let reason = match self.why {
            HEADER_CUT => "fewer than 16 bytes",
            OTHER_TYPE => "the type is not 134",
            OTHER_CODE => "the code is not 0",
            OPTION_CUT => "an option has no length or passes the end",
            OTHER_SIZE => "an option of type 3 has a length other than 4",
            PREFIX_TOO_LONG => "a prefix length is above 128",
            _ => "an unknown fault",
        };
        write!(f, "Router Advertisement at byte {place}: {reason}")
    }
}

impl Error for RaFault {}

/// Why no advertisement was read.
#[derive(Clone, Copy, Debug, PartialEq, Eq)]
pub enum ReadFault {
    /// The bytes are no Router Advertisement: the first fault.
    Ra(RaFault),
    /// Out of memory.
    NoMemory,
}

impl fmt::Display for ReadFault {
    fn fmt<W: fmt::Write>(&self, f: &mut fmt::Formatter<W>) -> fmt::Result {
        match self {
            ReadFault::Ra(fault) => write!(f, "{fault}"),
            ReadFault::NoMemory => write!(f, "{NoMemory}"),
        }
    }
}

impl Error for ReadFault {}

impl From<RaFault> for ReadFault {
    ghost use Rattle.hn_advert.specs.declared.fault.ReadFault.TheVariants.{Ra};

    ghost from_gives = { λ fault e. e ≡ Ra fault };

    fn from(fault: RaFault) -> ReadFault {
        ReadFault::Ra(fault)
    }
}

impl From<NoMemory> for ReadFault {
    ghost use Rattle.hn_advert.specs.declared.fault.ReadFault.TheVariants.{NoMemory};

    ghost from_gives = { λ _ e. e ≡ NoMemory };

    fn from(_error: NoMemory) -> ReadFault {
        ReadFault::NoMemory
    }
}
