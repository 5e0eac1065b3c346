//! The bytes of a datagram as text: a line for each TLV, in which its item is named and its fields are written out,
//! and the TLVs within it on lines below (RFC 7787, section 7; RFC 7788, section 10).
#![tactic(auto)]

mod datagram;
mod item_text;
mod laws;
mod line;
mod nested;

pub use datagram::{decode, first_line, push_next};
pub use laws::{decode_text_exists, decode_text_is_unique, lines_go_on, lines_make_the_text};
