//! The table of the other nodes of a home: what is held of each, and what comes of a node state that arrives
//! (RFC 7787, sections 4.4 and 4.6).
#![tactic(auto)]

mod acceptance;
mod laws;
mod loss;
mod place;
mod state;
mod stored;
mod table;
mod young;

pub use acceptance::BODY_LIMIT;
pub use laws::{
    acceptance_exists, acceptance_is_unique, acceptance_keeps_table, forgetting_is_a_moment,
    forgetting_leaves, held_is_of_an_entry, held_was_brought, loss_keeps_table, others_stay,
    own_stays, put_changes_one_node, true_data_are_kept,
};
pub use loss::GRACE;
pub use state::{OwnLeaf, State, Took};
pub use stored::{HeldNode, Stored};
pub use table::{LARGE_LIMIT, LIMIT, Table};
