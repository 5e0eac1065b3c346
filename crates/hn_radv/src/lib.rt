//! When an endpoint sends its Router Advertisements (RFC 4861, sections 6.2.4 and 6.2.6). Moments and spans are in
//! milliseconds. Nothing here takes memory, and nothing fails.
#![tactic(auto)]

mod laws;
mod sender;

pub use laws::{senders_are_spaced, solicited_is_answered};
pub use sender::Sender;
