//! Pairs of a delegated prefix and an endpoint: what a router asks and holds for them (RFC 7695, section 4.1).
#![tactic(auto)]

mod ascending;
mod assigned;
mod assignments;
mod backoff;
mod due;
mod held;
mod laws;
mod of_pairs;
mod pair;
mod wishes;

pub use assigned::{Assigned, Wish};
pub use assignments::Assignments;
pub use backoff::{Backoff, Backoffs};
pub use held::Held;
pub use laws::{lists_exist, pairs_are_ordered};
pub use of_pairs::OfPairs;
pub use pair::{Pair, Paired};
pub use wishes::Wishes;
