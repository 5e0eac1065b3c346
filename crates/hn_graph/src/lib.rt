//! Reachability: which nodes a router sees through mutual links (RFC 7787, section 4.6).
#![tactic(auto)]

mod later;
mod laws;
mod reachability;
mod search;

pub use later::next_age_limit;
pub use laws::{
    own_is_reachable, reachability_follows, reachability_of_later, reachability_stays,
    reachable_is_a_node, same_links_reach,
};
pub use reachability::reach;
pub use search::AGE_LIMIT;
