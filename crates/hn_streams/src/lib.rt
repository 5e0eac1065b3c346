//! What the forms of the programs share: a source is read, pieces, lines and refusals are written to a sink, and the statuses that tell
//! how it went.
#![tactic(auto)]

mod input;
mod laws;
mod line_output;
mod output;
mod status;
mod text_lines;

pub use input::read_all;
pub use laws::pieces_append;
pub use line_output::write_lines;
pub use output::{write_piece, write_refusal};
pub use status::{DONE, NO_MEMORY, REFUSED, SINK_FAILED, SOURCE_FAILED, WIRE_FAILED};
pub use text_lines::Lines;
