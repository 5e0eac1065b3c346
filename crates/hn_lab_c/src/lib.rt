//! The laboratory for C, behind a pointer (`include/hn_lab.h`): a play by mail to which lines of a script are added, one by one,
//! and looks at the home that it led to.
#![tactic(auto)]

mod asked;
mod copies;
mod decoding;
mod handle;
mod kinds;
mod life;
mod looks;
mod moments;
mod state;
mod status;
mod texts;
mod version;

pub use kinds::{MailCopy, State};
