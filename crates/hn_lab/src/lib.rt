//! The laboratory: a script is played in a world of routers, and its transcript is written line by line.
#![tactic(auto)]

mod address_reports;
mod audit_report;
mod choosing;
mod course;
mod existing;
mod laws;
mod of_line;
mod open;
mod play_line;
mod play_lines;
mod report;
mod scripts;
mod set;
mod soliciting;
mod syncing;
mod text_so_far;
mod ula_report;

pub use course::OpenFault;
pub use existing::{
    lab_is_of_transcript, play_exists, play_is_of_transcript, script_has_a_play, transcript_exists,
    written_is_of_transcript,
};
pub use hn_play::{End, note_line};
pub use laws::{
    at_most_one_cut_play, at_most_one_play, broken_text_is_a_front, cut_text_is_a_front,
    events_keep_quiet, mail_delivers, run_keeps_calm, wire_fails_at_a_copy,
};
pub use of_line::line_of;
pub use open::{OpenPlay, lab_plays_the_source, lines_go_on, plain_refusals_change_nothing};
pub use scripts::{
    DONE, NO_MEMORY, Played, REFUSED, SINK_FAILED, SOURCE_FAILED, WIRE_FAILED, lab, lab_by_mail,
    play,
};
