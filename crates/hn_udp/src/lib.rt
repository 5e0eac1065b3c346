//! A wire over the loopback sockets of the system.
#![tactic(auto)]

mod sockets;
mod wire;

pub use wire::UdpWire;
