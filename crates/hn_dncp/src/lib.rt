//! An endpoint of a home router as DNCP sees it: its Trickle timer, its peers, when it last asked and sent (RFC 7787,
//! sections 4.3 to 4.5 and 6.1), and the datagrams that TLVs are packed into (RFC 7787, section 4.2).
#![tactic(auto)]

mod ask;
mod due;
mod greet;
mod hash;
mod laws;
mod packing;
mod peers;
mod port;
mod tick;

pub use ask::LEAST_TIME_BETWEEN_REQUESTS;
pub use greet::Greet;
pub use laws::{
    packing_exists, packing_is_not_empty, packing_is_read, packing_is_short, packing_is_unique,
    peers_stay, undue_port, undue_port_stays,
};
pub use packing::{Datagrams, MOST_DATAGRAM_BYTES, pack};
pub use peers::{MOST_PEERS, Neighbour, Peers};
pub use port::Port;
pub use tick::Renewed;
