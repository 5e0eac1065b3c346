//! One router served over a wire, by turns: in each it reads a clock, takes a datagram, lets it arrive, ticks, and sends
//! what comes of it.
#![tactic(auto)]

mod laws;
mod logged;
mod node;
mod sending;
mod served;
mod serving;
mod taking;

pub use laws::{log_leads_once, turns_are_logged};
pub use logged::{Logged, NodeEvent};
pub use served::{ServeEnd, Served};
pub use serving::serve;
