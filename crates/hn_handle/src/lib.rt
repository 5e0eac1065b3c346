//! A router behind a pointer: a handle that C keeps, and the box of the router, which a handle is made of and gives back.
#![tactic(auto)]

mod handle;
mod parted;

pub use handle::Handle;
pub use parted::Parted;
