//! Why a home of routers at rest is sound: definitions and laws, without other code.
#![tactic(auto)]

mod laws;
mod needed;
mod worked;

pub use laws::{
    greatest_key_is_best, home_at_rest_is_sound, home_rests_as_seen, key_tells_endpoint,
    link_follows_its_publisher, link_has_one_publisher, links_do_not_overlap, lists_are_exact,
    rest_knows_no_order,
};
pub use needed::{
    best_prefix_is_needed, for_used_is_needed, greater_key_is_needed, nothing_to_do_is_needed,
    once_on_link_is_needed, one_each_is_needed, one_link_is_needed, priority_two_is_needed,
    published_inside_is_needed, published_is_needed, unpublished_is_needed, used_apart_is_needed,
    valid_is_needed,
};
pub use worked::{overlapping_home_is_not_at_rest, worked_home_is_sound};
