//! Wires and clocks as the program sees them: what datagrams are sent over from port to port, and what tells the time,
//! with kinds in memory that tell their content, and the machine's clock, which does not.
#![tactic(auto)]

mod clock;
mod datagram;
mod machine_clock;
mod mem_clock;
mod mem_wire;
mod wire;

pub use clock::Clock;
pub use datagram::{Datagram, MOST_WIRE_BYTES};
pub use machine_clock::MachineClock;
pub use mem_clock::MemClock;
pub use mem_wire::MemWire;
pub use wire::Wire;
