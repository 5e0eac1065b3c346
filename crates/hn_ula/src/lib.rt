//! ULA prefixes: whether a router announces one of its own making (RFC 4193; RFC 7788, section 6.5). The rule is this
//! project's own.
#![tactic(auto)]

mod decision;
mod found;
mod generated;
mod laws;

pub use decision::{Ula, decide, has_generated, still};
pub use laws::{announced_is_a_prefix, decision_exists, decision_is_unique};
