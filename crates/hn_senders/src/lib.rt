//! Those that send Router Advertisements in a play: their endpoints, when each sends, and what it sent last.
#![tactic(auto)]

mod senders;

pub use senders::{Senders, Sending, Shape};
