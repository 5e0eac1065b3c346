//! The hash of a home router's network state, and what two routers that agree on it can conclude (RFC 7787,
//! section 4.1, with the hash of RFC 7788, section 3).
#![tactic(auto)]

mod agreement;
mod hash;
mod laws;
mod leaf;
mod network_state;
mod part;

pub use agreement::{Agreement, agree};
pub use hash::{h, same_hash};
pub use laws::{equal_hashes_agree_or_collide, hash_has_eight_bytes};
pub use leaf::Leaf;
pub use network_state::{network, network_of};
pub use part::Part;
