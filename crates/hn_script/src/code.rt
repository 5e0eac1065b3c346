//! The codes of faults.

/// The first line is not that of a script.
pub(crate) const OPENING: u8 = 1;

/// The first word of a line is unknown.
pub(crate) const UNKNOWN: u8 = 2;

/// A line has too many or too few words.
pub(crate) const COUNT: u8 = 3;

/// A number, name, identifier, way or hexadecimal text is malformed or out of range.
pub const MALFORMED: u8 = 4;

/// A line has more than 16,384 bytes.
pub(crate) const LONG: u8 = 5;

/// A line has a byte that is none from 20 to 7E in hexadecimal.
pub(crate) const FOREIGN: u8 = 6;

/// The source has more than 2^24 bytes.
pub const LARGE: u8 = 15;
