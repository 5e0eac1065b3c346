//! The timers of a home router: Trickle (RFC 6206, section 4) and the keep-alives of peers (RFC 7787, section 6.1).
//! Nothing here takes memory.
#![tactic(auto)]

mod keep_alive;
mod laws;
mod trickle;

pub use keep_alive::{
    KEEP_ALIVE_MULTIPLIER_DENOMINATOR, KEEP_ALIVE_MULTIPLIER_NUMERATOR, expired, is_keep_alive_due,
    next_expiry, next_silence,
};
pub use laws::{expiry_is_a_moment, silence_is_a_moment, undue_interval_stays};
pub use trickle::{LONGEST_INTERVAL, SHORTEST_INTERVAL, Trickle};
