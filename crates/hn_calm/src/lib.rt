//! Whether a home is calm, and until when it lasts; and if it is not, what is missing.
#![tactic(auto)]

mod calm;
mod ended;
mod home;
mod peers;
mod sent;
mod text;
mod uncalm;

pub use calm::calm_text;
pub use uncalm::{PeerAt, Uncalm};
