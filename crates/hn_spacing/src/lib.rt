//! Router Advertisements of a play are apart: a law over plays, without other code.
#![tactic(auto)]

mod laws;

pub use laws::ra_lines_are_spaced;
