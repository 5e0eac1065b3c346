//! What a router has and says of itself: its endpoints, its posts, its delegated prefixes, its assignments, its addresses,
//! and the node data that it publishes of them (RFC 7787, section 7.3; RFC 7788, sections 6.2, 6.3 and 10).
#![tactic(auto)]

mod addresses;
mod held_pairs;
mod laws;
mod lifetimes;
mod own;
mod own_prefixes;
mod ports;
mod posts;

pub use addresses::Addresses;
pub use held_pairs::HeldPairs;
pub use laws::{
    addresses_stay, ending_is_a_moment, ending_leaves, held_without_private, none_are_well,
    own_data_exists, own_data_is_unique, own_items_fit, own_prefixes_stay, posts_ascend,
};
pub use own::{OwnData, OwnItems};
pub use own_prefixes::{OwnPrefix, OwnPrefixes};
pub use ports::{MOST_ENDPOINTS, Ports};
pub use posts::{PRIVATE_POST, length_at};
