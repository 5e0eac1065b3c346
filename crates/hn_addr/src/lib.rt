//! Node addresses: which addresses a router takes for itself inside its assigned prefixes (RFC 7788, sections 6.4 and 10.4).
//! The rule is this project's own. Also what the nodes that a router reaches say of one kind, each thing with its node.
#![tactic(auto)]

mod choice;
mod choosing;
mod fitting;
mod laws;
mod of_node;
mod others;
mod stays;

pub use choice::{Choice, choose, still};
pub use laws::{
    choice_exists, choice_is_unique, chosen_addresses_fit, number_is_inside, still_addresses_stay,
};
pub use of_node::{OfNode, from_nodes};
