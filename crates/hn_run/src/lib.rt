//! What the program `hncp` does with its words, its input, its output, a wire and a clock: it runs a script, or that of a
//! soak, and writes its transcript, in memory or over loopback sockets; serves one router; reads datagrams; and watches what
//! was claimed on a link.
#![tactic(auto)]

mod outcome;
mod program;
mod soak;
mod status;

pub use hn_forms::{Form, NodeCall};
pub use outcome::Outcome;
pub use program::run;
pub use status::{BAD_USAGE, DONE, NO_MEMORY, REFUSED, SINK_FAILED, SOURCE_FAILED, WIRE_FAILED};
