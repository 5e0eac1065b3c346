//! What a router holds, as text: itself, its peers, the nodes that it knows, its assignments, the delegated prefixes and
//! what becomes of each, and the data of the nodes.
#![tactic(auto)]

mod assignment_lines;
mod data_lines;
mod delegated_lines;
mod fate;
mod outer;
mod router_lines;
mod table;

pub use fate::one_fate;
pub use table::table_text;
