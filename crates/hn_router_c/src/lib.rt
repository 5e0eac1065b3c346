//! A router for C, behind a pointer (`include/hn_router.h`). Each event is a call, and each report is one.
#![tactic(auto)]

mod beside;
mod choosing;
mod events;
mod happening;
mod keeping;
mod kinds;
mod life;
mod others;
mod reports;
mod state;

pub use kinds::{Address, Assigned, Departed, Elected, Known, Note, Peer, Sent, Used};
