//! The forms of the program `hncp` that play no script: `decode` reads a datagram, `watch` reads a capture, and `node` serves one
//! router. And the words of the command line, which ask for a form.
#![tactic(auto)]

mod capture;
mod decode_form;
mod hex_text;
mod node_end;
mod node_form;
mod output;
mod report;
mod seen_text;
mod setup;
mod status;
mod watch_form;
mod words;

pub use decode_form::decode;
pub use node_end::NodeEnd;
pub use node_form::node;
pub use watch_form::watch;
pub use words::{Form, NodeCall};
