//! One exchange between two routers of a world.
#![tactic(auto)]

mod exchange;
mod joint;
mod laws;
mod question;

pub use exchange::Exchange;
pub use joint::{NOT_JOINED, unless_exchange};
pub use laws::{
    exchange_exists, exchange_is_entered, exchange_is_unique, exchange_repairs, joint_is_least,
    question_is_packed, question_is_unique, refused_or_asked, stops_for_room_alone,
};
