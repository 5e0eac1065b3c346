//! A router that draws its own random words and keeps what its last event came to, for those who call it one event at a
//! time.
#![tactic(auto)]

mod changes;
mod choosing;
mod keeper;
mod laws;
mod preferred;
mod words;

pub use keeper::Keeper;
pub use laws::{free_is_published, new_is_preferred, nothing_preferred, place_is_published};
pub use preferred::Preferred;
pub use words::ChaChaWords;
