//! The statuses of a form that reads a source and writes to a sink.

/// The input was read to its end and the whole text was written.
pub const DONE: u8 = 0;
/// The script or one of its lines was refused; the last line written says it.
pub const REFUSED: u8 = 2;
/// The source failed; nothing was written.
pub const SOURCE_FAILED: u8 = 3;
/// The sink failed.
pub const SINK_FAILED: u8 = 4;
/// The wire failed, right before a delivery.
pub const WIRE_FAILED: u8 = 5;
/// Out of memory.
pub const NO_MEMORY: u8 = 6;
