//! Laws of the item table (RFC 7787, section 7; RFC 7788, section 10).
//!
//! Each is the contract of a function that does nothing: call it to know its law.

ghost use Rattle.hn_typed.specs.Laws.{ItemIsUnique, ItemHasNoFault, ItemFaultIsUnique, ItemOrFault};
ghost use Rattle.hn_typed.specs.Laws.{WrittenIsRead, ReadIsWritable};

use hn_tlv::{first_fault_is_unique, list_or_first_fault};

/// A TLV decodes to at most one item.
pub fn item_is_unique()
    ensures { ItemIsUnique }
{}

/// A TLV with a fault decodes to no item, and has one fault only.
pub fn item_fault_is_unique()
    ensures no_item { ItemHasNoFault }
    ensures one { ItemFaultIsUnique }
{}

/// A TLV decodes to an item, or has a fault.
pub fn item_or_fault()
    ensures { ItemOrFault }
{
    list_or_first_fault();
    first_fault_is_unique();
}

/// What is written is read as that item again.
pub fn written_is_read()
    ensures { WrittenIsRead }
{}

/// What was read can be written, if its value is not too long.
pub fn read_is_writable()
    ensures { ReadIsWritable }
{}
