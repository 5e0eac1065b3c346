//! What a library for C stands on: a slot, which has a value on the heap or none; the box of the value, which a slot is made of
//! and gives back; and the room that C gives for bytes.
#![tactic(auto)]

mod parted;
mod room;
mod slot;

pub use parted::Parted;
pub use room::write;
pub use slot::Slot;
