//! TLVs by their kind, read and written: RFC 7787, section 7, and RFC 7788, section 10.
//!
//! A value begins with fixed fields in network byte order. In most kinds it ends there, or zero bytes up to the next
//! multiple of 4 follow and then a list of TLVs, the sub-TLVs. What is read is lent by the text that it was read from.
#![tactic(auto)]

mod encoding;
mod fault;
mod fields;
mod fixed;
mod item;
mod laws;
mod prefix;
mod readers;
mod reading;
mod subs;
mod writing;

pub use encoding::encode;
pub use fault::{FIELDS_CUT, ItemFault, NO_PREFIX, NO_SUBS, NO_TEXT};
pub use item::{
    ADDRESS, ASSIGNED, DELEGATED, EXTERNAL, Item, KEEP_ALIVE, NETWORK_STATE, NODE_ENDPOINT,
    NODE_STATE, PEER, REQUEST_NETWORK, REQUEST_NODE, VERSION,
};
pub use laws::{
    item_fault_is_unique, item_is_unique, item_or_fault, read_is_writable, written_is_read,
};
pub use reading::read;
pub use writing::{after_fields, value_len, write};
