//! Laws of node data (RFC 7787, section 7) and of views.
//!
//! Each is the contract of a function that does nothing: call it to know its law.

ghost use Rattle.hn_tlv.specs.Grammar.{HasTlvs};
ghost use Rattle.hn_data.specs.Items.{HasItems};
ghost use Rattle.hn_data.specs.Laws.{ItemsAreUnique, ItemsOrNone, AscendingSetIsUnique, LaterIsANetwork};
ghost use Rattle.hn_data.specs.OwnData.{AreBytes};

use crate::node_data::NodeData;
use hn_tlv::{first_fault_is_unique, list_is_of_bytes, list_is_unique, list_or_first_fault};
use hn_typed::{item_fault_is_unique, item_is_unique, item_or_fault};

/// Node data have at most one list of items.
pub fn items_are_unique()
    ensures { ItemsAreUnique }
{
    list_is_unique();
    item_is_unique();
}

/// Numbers are node data with items, or they are none.
pub fn items_or_none()
    ensures { ItemsOrNone }
{
    list_is_of_bytes();
    first_fault_is_unique();
    list_or_first_fault();
    item_fault_is_unique();
    item_or_fault();
}

/// Node data are a list of TLVs, and have items.
pub fn node_data_has_items(node_data: &NodeData)
    ensures list { HasTlvs node_data.now }
    ensures items { HasItems node_data.now (λ _. Unit {0}) }
{
    let _kept = node_data.kept();
}

/// Pieces have at most one such bytes: those of the pieces in ascending order, each once.
pub fn ascending_set_is_unique()
    ensures { AscendingSetIsUnique }
{}

/// A network stays one while time passes.
pub fn later_is_a_network()
    ensures { LaterIsANetwork }
{}

/// Bytes have eight bits.
pub(crate) fn are_bytes(bytes: &[u8])
    ensures { AreBytes bytes.now }
{
    let _bytes = bytes;
}
