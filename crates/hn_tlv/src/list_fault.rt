ghost use Rattle.std.specs.Prelude.{◌≡◌};

use crate::fault::TlvFault;
use hn_base::NoMemory;
use std::error::Error;
use std::fmt;

/// Why bytes were not read as a list of TLVs, where the reading takes memory.
#[derive(Clone, Copy, Debug, PartialEq, Eq)]
pub enum ListFault {
    /// They are no list of TLVs (RFC 7787, section 7): the first fault.
    Malformed(TlvFault),
    /// Out of memory.
    NoMemory,
}

impl fmt::Display for ListFault {
    fn fmt<W: fmt::Write>(&self, f: &mut fmt::Formatter<W>) -> fmt::Result {
        match self {
            ListFault::Malformed(fault) => write!(f, "{fault}"),
            ListFault::NoMemory => write!(f, "{NoMemory}"),
        }
    }
}

impl Error for ListFault {}

impl From<TlvFault> for ListFault {
    ghost use Rattle.hn_tlv.specs.declared.list_fault.ListFault.TheVariants.{Malformed};

    ghost from_gives = { λ fault e. e ≡ Malformed fault };

    fn from(fault: TlvFault) -> ListFault {
        ListFault::Malformed(fault)
    }
}

impl From<NoMemory> for ListFault {
    ghost use Rattle.hn_tlv.specs.declared.list_fault.ListFault.TheVariants as of;

    ghost from_gives = { λ _ e. e ≡ of.NoMemory };

    fn from(_error: NoMemory) -> ListFault {
        ListFault::NoMemory
    }
}
