//! The world that a script runs in: routers on links, the datagrams between them, and the trace of what happened.
#![tactic(auto)]

mod act;
mod asked;
mod compare;
mod copies;
mod event;
mod existing;
mod finish;
mod kept;
mod laws;
mod limits;
mod links;
mod mail;
mod member;
mod parts;
mod plain_events;
mod published;
mod receivers;
mod refusal;
mod routed;
mod told;
mod trace;
mod world;

pub use copies::{CopyInfo, MailCopy};
pub use event::{Traced, WEvent, WorldFault};
pub use laws::{
    agreement_exists, agreement_is_unique, always_attached, always_authentic, always_sound,
    always_within_limits, at_most_one_world, copies_are_bytes, each_event_is_a_step,
    each_event_is_entered, equal_hashes_always_agree, names_differ, router_is_within_limits,
    step_exists, step_is_unique,
};
pub use mail::HNCP_PORT;
pub use member::{Attachment, Member};
pub use refusal::{NOT_ATTACHED, PAST, STOPPED, UNKNOWN};
pub use world::World;
