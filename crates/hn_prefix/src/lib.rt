//! IPv6 prefixes as values: which addresses are inside, which prefixes overlap, and the first free one of a length;
//! and the texts of addresses and prefixes.
#![tactic(auto)]

mod free;
mod gap;
mod groups;
mod laws;
mod parse;
mod prefix;
mod text;

pub use free::first_free;
pub use laws::{
    free_or_full, groups_are_the_address, inside_are_sub_prefixes, place_is_first,
    read_form_is_of_one, written_form_is_one, written_form_is_read,
};
pub use parse::{BadText, parse_address};
pub use prefix::{
    BadPrefix, LONGEST_PREFIX, Prefix, inside_is_range, order_is_total, overlap_is_nesting,
    prefixes_are_ranges, sub_prefixes_are_all, within_is_not_shorter,
};
pub use text::{PrefixText, address_text};
