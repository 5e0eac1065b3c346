//! The rules by which an event changes the state of a home router, and what they keep (RFC 7787; RFC 7788, sections 3 to
//! 6).
#![tactic(auto)]

mod answers;
mod arrival;
mod assigning;
mod delegating;
mod done;
mod due;
mod events;
mod idle;
mod lasting;
mod laws;
mod nodes;
mod present;
mod reaching;
mod refresh;
mod running;
mod seen;
mod state;
mod take;
mod tick;
mod ticks;

pub use answers::{Answer, Subject};
pub use arrival::Passing;
pub use done::{Done, Note, Outgoing, Publication};
pub use laws::{
    assigned_is_published, calm_tick, calm_tick_leaves_ages, calm_tick_moves_ports,
    changes_keep_bytes, changes_keep_genuine, changes_keep_hashed, changes_keep_short,
    changes_keep_the_limit, changes_keep_the_rest, changes_only_add, entries_are_as_known,
    hash_is_of_leaves, idle_is_undue, idle_until_due, idle_while_undue, items_are_published,
    kept_undue_reaches, next_due_is_one, next_due_stays, own_addresses_are_said,
    own_interval_is_default, own_peers_are_of_endpoints, own_version_is_said, passing_keeps_undue,
    peers_are_attached, private_post_is_alone, refresh_after_a_refresh_rests,
    refresh_makes_a_router, router_stays_later, rules_have_a_result, rules_have_one_result,
    rules_keep_a_router, rules_keep_the_endpoints, rules_keep_the_rest, rules_make_changes,
    tick_keeps_the_identifier, ticks_have_sent, ticks_send_status_updates, undue_is_idle,
    undue_stays, updates_of_peers_are_let_pass, used_where_assigned, view_is_a_network,
    view_of_later, wishes_exist,
};
pub use present::Present;
pub use running::{Origin, Running};
pub use state::{HeldPairs, State};
