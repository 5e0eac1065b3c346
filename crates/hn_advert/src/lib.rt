//! Router Advertisement messages with Prefix Information options (RFC 4861, sections 4.2 and 4.6.2), as bytes. A message
//! is the ICMPv6 message from its type on, without an IP header:
//!
//! ```text
//! place  bytes  field
//! 0      1      type, 134
//! 1      1      code, 0
//! 2      2      checksum
//! 4      1      current hop limit
//! 5      1      flags: M 0x80, O 0x40
//! 6      2      router lifetime in seconds
//! 8      4      reachable time
//! 12     4      retransmission timer
//! 16            options
//! ```
//!
//! An option is a type of 1 byte, a length of 1 byte in units of 8 bytes, and the rest of that many bytes. Options of
//! other types than Prefix Information are skipped by their length:
//!
//! ```text
//! place  bytes  field
//! 0      1      type, 3
//! 1      1      length, 4
//! 2      1      prefix length in bits
//! 3      1      flags: L 0x80, A 0x40
//! 4      4      valid lifetime in seconds
//! 8      4      preferred lifetime in seconds
//! 12     4      reserved
//! 16     16     prefix
//! ```
#![tactic(auto)]

mod advert;
mod fault;
mod header;
mod laws;
mod layout;
mod options;
mod reading;
mod writing;

pub use advert::{Advert, Info, Infos};
pub use fault::{
    HEADER_CUT, OPTION_CUT, OTHER_CODE, OTHER_SIZE, OTHER_TYPE, PREFIX_TOO_LONG, RaFault, ReadFault,
};
pub use laws::{
    advert_is_unique, advert_or_fault, fault_is_unique, other_options_are_skipped, written_is_read,
};
pub use reading::read;
pub use writing::bytes;
