//! Why a router is not settled, or not quiet, in words.
#![tactic(auto)]

mod link;
mod part;
mod unquiet;
mod unsettled;
mod why;

pub use link::LinkName;
pub use part::{Part, say};
pub use why::why_text;
