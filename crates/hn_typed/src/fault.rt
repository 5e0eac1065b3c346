use std::error::Error;
use std::fmt;

/// Fixed fields or prefix bytes are missing.
pub const FIELDS_CUT: u8 = 1;

/// What follows the fixed fields is no pad of zeros and list of TLVs.
pub const NO_SUBS: u8 = 2;

/// The prefix length is above 128, or a bit past it is set.
pub const NO_PREFIX: u8 = 3;

/// The user agent is not in UTF-8.
pub const NO_TEXT: u8 = 4;

/// Why a TLV decodes to no item (RFC 7787, section 7; RFC 7788, section 10).
#[derive(Clone, Copy, Debug, PartialEq, Eq)]
pub struct ItemFault {
    /// The kind of the TLV.
    pub kind: u16,
    /// `FIELDS_CUT`, `NO_SUBS`, `NO_PREFIX` or `NO_TEXT`.
    pub why: u8,
}

impl fmt::Display for ItemFault {
    fn fmt<W: fmt::Write>(&self, f: &mut fmt::Formatter<W>) -> fmt::Result {
        let kind = self.kind;
        let reason = match self.why {
            FIELDS_CUT => "fixed fields or prefix bytes are missing",
            NO_SUBS => "what follows is no padding and list of TLVs",
            NO_PREFIX => "the prefix length is above 128 or a bit past it is set",
            NO_TEXT => "the user agent is not in UTF-8",
            _ => "an unknown fault",
        };
        write!(f, "TLV of type {kind}: {reason}")
    }
}

impl Error for ItemFault {}
