pub use hn_streams::{DONE, NO_MEMORY, REFUSED, SINK_FAILED, SOURCE_FAILED, WIRE_FAILED};

/// Bad usage: the words of the command line ask for nothing that there is; nothing was read or written.
pub const BAD_USAGE: u8 = 1;
