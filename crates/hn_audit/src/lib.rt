//! Whether a router is settled and quiet, with those that it reaches, and if not, why not; and why it is sound where it
//! is both.
#![tactic(auto)]

mod audit;
mod knowing;
mod laws;
mod reached;
mod resting;
mod spots;
mod witness;

pub use audit::Audit;
pub use laws::{
    calm_comes_and_lasts, calm_homes_always_stay, headline_of_each_front, quiet_homes_always_stay,
    quiet_homes_stay, quiet_homes_stay_over_deliveries, rest_goes_in_turns, rest_goes_on,
    rest_is_the_fixed_point, rest_lasts_while_heard, round_renews, set_is_sound_alike,
    settled_and_quiet_is_sound, settled_are_always_sound, settled_elect_alike,
    settled_have_one_hash, settled_see_each_other, witness_is_unique, witness_refutes,
};
pub use spots::are_on_one_link;
pub use witness::{Unquiet, Unsettled};
