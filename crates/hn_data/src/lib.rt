//! Node data: what a node says of itself, read once (RFC 7787, section 7.2.3; RFC 7788, section 10).
#![tactic(auto)]

mod asked;
mod delegations;
mod kept;
mod laws;
mod node_data;
mod own_data;
mod place;
mod reading;
mod said;
mod view;
mod walk;

pub use asked::{keep_alive, linked, version};
pub use hn_typed::encode;
pub use laws::{
    ascending_set_is_unique, items_are_unique, items_or_none, later_is_a_network,
    node_data_has_items,
};
pub use node_data::NodeData;
pub use place::{peer_place, place_of};
pub use said::{AssignedPrefix, Delegation, Interval, PeerLink};
pub use view::{Entry, View};
