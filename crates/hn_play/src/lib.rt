//! What goes on in a play: events of its world, deliveries by mail or over a wire, `flow`, `run`, and Router Advertisements.
#![tactic(auto)]

mod carrying;
mod delivery;
mod electing;
mod end;
mod flowing;
mod notes;
mod playing;
mod rounds;
mod sending;
mod stream;

pub use carrying::{Carried, Carrier, Mail, OverWire, Room};
pub use delivery::deliver;
pub use electing::{unless_elects, unless_on};
pub use end::{End, Stop, stopping};
pub use flowing::flow;
pub use notes::{note_line, note_lines};
pub use playing::Playing;
pub use rounds::run;
pub use sending::happen;
pub use stream::Stream;
