//! What the nodes of a network claimed of themselves, by the datagrams of a capture: of each node the latest sequence
//! number and hash, and with how many numbers it was shown with different hashes (RFC 7787, section 7.2.3).
//!
//! It says what was claimed, and not which claim is genuine.
#![tactic(auto)]

mod claim;
mod laws;
mod places;
mod reading;
mod remembered;
mod seen;
mod shown;
mod summing;
mod watch;

pub use laws::{held_after_malformed, lists_show, seen_is_unique, shown_is_unique};
pub use seen::Seen;
pub use shown::Shown;
pub use watch::Watch;
