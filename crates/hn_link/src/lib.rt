//! Common Links and who serves on them (RFC 7788, sections 4 and 6.1).
#![tactic(auto)]

mod common_link;
mod election;
mod laws;
mod rank;

pub use common_link::common;
pub use election::elected;
pub use laws::{
    common_link_exists, common_link_is_unique, common_link_of_later, elected_is_unique,
};
