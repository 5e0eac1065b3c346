//! Usable delegated prefixes (RFC 7788, sections 6.2 and 6.3).
#![tactic(auto)]

mod announcements;
mod choice;
mod delegated;
mod ends;
mod greatest;
mod laws;
mod nesting;
mod usable;

pub use choice::{outside, wanted};
pub use delegated::{Delegated, whole_seconds};
pub use ends::next_end;
pub use laws::{
    ends_of_later, inside_keeps_the_order, lifetimes_fit, usable_are_prefixes, usable_exists,
    usable_is_unique, usable_never_overlap, usable_of_later, used_by_candidates,
};
pub use usable::used;
