//! What a call answers.

/// The call is done.
pub(crate) const DONE: u8 = 0;

/// Out of memory.
pub(crate) const NO_MEMORY: u8 = 1;

/// It is refused, what is asked for is not there, there is no room, or the handle has no play.
pub(crate) const REFUSED: u8 = 2;

/// The play is over.
pub(crate) const OVER: u8 = 3;
