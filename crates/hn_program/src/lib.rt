//! What the programs do around a run: they read the words of the command line, and say on standard error where an input
//! was refused, and what the code means. The refusal is read from the end of the text that was written.
#![tactic(auto)]

mod ended;
mod last_piece;
mod meaning;
mod refusal;
mod words;

pub use ended::Ended;
pub use last_piece::LastPiece;
pub use meaning::Input;
pub use refusal::{Reason, Refusal};
pub use words::words_of;
