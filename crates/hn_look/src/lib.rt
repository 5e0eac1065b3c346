//! A home is seen from inside: its script is played, and then the world is looked at that it led to.
#![tactic(auto)]

mod copied;
mod event_text;
mod last_line;
mod log;
mod look;
mod named;
mod program;
mod status;
mod step_text;
mod words;

pub use log::{at_most_one_log, write_log};
pub use program::run;
pub use status::{BAD_USAGE, DONE, NO_MEMORY, REFUSED, SINK_FAILED, SOURCE_FAILED};
pub use step_text::sender_place;
pub use words::Form;
