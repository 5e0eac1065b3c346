//! Laws of what is shown and seen.
//!
//! Each is the contract of a function that does nothing: call it to know its law.

ghost use Rattle.hn_watch.specs.Laws.{ShownIsUnique, ListsShow, SeenIsUnique, HeldAfterMalformed};

use hn_tlv::list_is_unique;
use hn_typed::{item_fault_is_unique, item_is_unique, item_or_fault};

/// A datagram shows at most one list.
pub fn shown_is_unique()
    ensures { ShownIsUnique }
{
    list_is_unique();
    item_is_unique();
    item_fault_is_unique();
}

/// Each list of TLVs shows something, or nothing.
pub fn lists_show()
    ensures { ListsShow }
{
    item_or_fault();
}

/// Of what was shown there is one list of what is seen.
pub fn seen_is_unique()
    ensures { SeenIsUnique }
{}

/// What a watch holds it holds after a malformed datagram.
pub fn held_after_malformed()
    ensures { HeldAfterMalformed }
{}
