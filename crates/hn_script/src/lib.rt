//! The script language of the laboratory: which bytes are a script, of which lines; the first fault of bytes that are
//! none; the reading of a script, and its printing.
//!
//! A script is ASCII text in lines ended by LF; the last line may lack it. The first line is `hncp 1` or `hncp 2`;
//! version 2 has the lines of version 1 and more. In each of them words are separated by one or more spaces, and spaces
//! at both ends are skipped. A line without words is skipped, and so is one whose first word begins with `#`.
//! docs/FORMATS.md has the table of lines. The file of a single node is read by the same rules.
#![tactic(auto)]

mod code;
mod draft;
mod fault;
mod fields;
mod laws;
mod line;
mod node_file;
mod reader;
mod script;
mod shapes;
mod soak;
mod texts;
mod version;
mod words;

pub use code::{LARGE, MALFORMED};
pub use fault::{ParseFault, ReadFault, ScriptFault};
pub use fields::{hex_word, number_in};
pub use laws::{
    fault_excludes_node_file, fault_excludes_script, fault_is_unique, line_is_unique,
    lines_are_added, lines_are_of_version, node_fault_is_unique, node_file_is_unique,
    printed_is_read, script_is_limited, script_is_unique, soak_is_a_script, values_fit,
};
pub use line::{How, Line, letter_text};
pub use node_file::{NodeLine, parse_node_file};
pub use script::{SOURCE_LIMIT, Script, first_fault, parse, print, read_line};
pub use soak::soak_script;
pub use texts::next_line;
