//! Prefix assignment: which prefix each link gets inside each delegated prefix (RFC 7695; RFC 7788, section 6.3).
#![tactic(auto)]

mod advertised;
mod assignments;
mod backoffs;
mod changed;
mod gathering;
mod index;
mod kept_index;
mod laws;
mod lines;
mod precedence;
mod ran;
mod renewing;
mod rest;
mod scene;
mod slot;
mod step;
mod subroutines;
mod turn;
mod unassigned;

pub use advertised::Advertised;
pub use gathering::{AdvertisedPrefixes, gather};
pub use hn_pair::{
    Assigned, Assignments, Backoff, Backoffs, Held, OfPairs, Pair, Paired, Wish, Wishes,
    pairs_are_ordered,
};
pub use index::Index;
pub use kept_index::{KeptIndex, same_assigned};
pub use laws::{
    advertised_exists, advertised_of_later, advertised_of_unchanged, answers_know_no_order,
    idle_run_stays, lines_exclude_each_other, marks_change_nothing, rest_changes_no_assignment,
    rest_has_a_run, rest_is_unchanged, rest_stays, steps_have_one_result, subroutine_has_a_result,
    subroutine_has_one_result, subroutine_keeps, subroutine_leaves,
};
pub use precedence::{PRIORITY, best, valid};
pub use ran::Ran;
pub use rest::is_at_rest;
pub use scene::Scene;
pub use subroutines::{subroutine, subroutine_with};
