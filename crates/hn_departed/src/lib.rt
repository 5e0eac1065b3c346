//! Prefixes that were advertised and are no longer: each is told with a preferred lifetime of 0 until its valid lifetime
//! has ended (RFC 9096, section 3.5; RFC 4861, section 4.6.2), for at most 7,200 s (RFC 4862, section 5.5.3 e).
#![tactic(auto)]

mod departures;
mod keeping;
mod laws;

pub use departures::{Departures, Told};
pub use laws::{
    departed_are_told, departed_end_soon, endpoints_keep_theirs, few_are_kept, first_go,
};
