use std::error::Error;
use std::fmt;

/// One to three bytes are left, too few for a type and a length. The fault lies at the first one.
pub const HEADER_CUT: u8 = 1;

/// The value passes the end. The fault lies where the TLV begins.
pub const VALUE_CUT: u8 = 2;

/// A pad byte is missing. The fault lies at its place, the end.
pub const PADDING_CUT: u8 = 3;

/// A pad byte is not zero. The fault lies at its place.
pub const PADDING_NOT_ZERO: u8 = 4;

/// Why no TLV begins at a place where one has to (RFC 7787, section 7).
#[derive(Clone, Copy, Debug, PartialEq, Eq)]
pub struct TlvFault {
    /// Where the fault lies, in bytes from the beginning of the text.
    pub place: usize,
    /// `HEADER_CUT`, `VALUE_CUT`, `PADDING_CUT` or `PADDING_NOT_ZERO`.
    pub why: u8,
}

impl fmt::Display for TlvFault {
    fn fmt<W: fmt::Write>(&self, f: &mut fmt::Formatter<W>) -> fmt::Result {
        let place = self.place;
        let reason = match self.why {
            HEADER_CUT => "the type and the length are cut off",
            VALUE_CUT => "the value passes the end",
            PADDING_CUT => "a pad byte is missing",
            PADDING_NOT_ZERO => "a pad byte is not zero",
            _ => "an unknown fault",
        };
        write!(f, "TLV list at byte {place}: {reason}")
    }
}

impl Error for TlvFault {}
