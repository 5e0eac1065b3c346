//! Type-length-value objects (TLVs) and lists of them: RFC 7787, section 7.
//!
//! A TLV is a type of 2 bytes, a length of 2 bytes, both in network byte order, the value of that
//! many bytes, and zero bytes up to the next multiple of 4, which the length does not count. A list
//! of TLVs is their concatenation. Nothing here allocates: what is read is lent, and what is
//! written goes where the caller says.
#![tactic(auto)]

mod fault;
mod laws;
mod list_fault;
mod reading;
mod writing;

pub use fault::{HEADER_CUT, PADDING_CUT, PADDING_NOT_ZERO, TlvFault, VALUE_CUT};
pub use laws::{
    fault_after_list, fault_is_unique, first_fault_is_unique, list_continues, list_grows,
    list_is_of_bytes, list_is_unique, list_or_first_fault, lists_join, spelling_is_prefix_free,
    spelling_is_read, tlv_is_unique,
};
pub use list_fault::ListFault;
pub use reading::{Tlv, check, next};
pub use writing::{HEADER_SIZE, padding, size, write_to};
