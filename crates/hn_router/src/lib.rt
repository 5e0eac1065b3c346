//! A home router as a state machine: an event goes in, and its next state, datagrams and notes come out (RFC 7787; RFC
//! 7788, sections 3 to 6).
#![tactic(auto)]

mod act;
mod advertising;
mod due;
mod edit;
mod event;
mod laws;
mod router;

pub use act::{event_in_range, event_of_bytes};
pub use event::Event;
pub use laws::{
    advert_exists, calm_ticks_stay, elected_exists, endpoints_follow, event_has_a_result,
    events_keep_the_moment, genuine_stays, limit_stays, moment_is_now, new_exists, new_is_router,
    new_is_unique, one_result, refused_input_stays, router_has_one_advert, router_stays,
    sends_are_bytes, sends_are_short,
};
pub use router::{Plan, Router};
