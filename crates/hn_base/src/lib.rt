//! What the crates of the home router share: identifiers, moments, names, capabilities, the keep-alive interval, the
//! length of a link's prefixes, out of memory, numerals and hexadecimal text; and definitions that need no type of
//! another crate.
#![tactic(auto)]

mod addr;
mod ascending;
mod caps;
mod due;
mod hex_text;
mod ids;
mod keep_alive;
mod key;
mod letter;
mod link_length;
mod memory;
mod name;
mod node_ids;
mod numeral;
mod order;
mod past;
mod sequence;
mod shared;
mod split;
mod version;
mod yes_or_no;

pub use addr::{Addr, link_local};
pub use ascending::{ascending_is_unique, is_in_set, sort_to_set};
pub use caps::Caps;
pub use due::sooner;
pub use hex_text::Hex;
pub use ids::{EpId, Moment, NodeId};
pub use keep_alive::KEEP_ALIVE_INTERVAL;
pub use key::{Key, key_order_is_total};
pub use letter::Letter;
pub use link_length::LinkLength;
pub use memory::NoMemory;
pub use name::{NAME_CAPACITY, Name};
pub use node_ids::{Endpoints, NodeIds};
pub use numeral::{MOST_DIGITS, number};
pub use order::older;
pub use past::Past;
pub use sequence::{Bytes, Sequence, Words};
pub use shared::{Exact, Shared};
pub use split::split_once;
pub use version::Version;
pub use yes_or_no::yes_no;
