//! Laws of the table and of what comes of a node state.
//!
//! Each is the contract of a function that does nothing: call it to know its law.

ghost use Rattle.hn_store.specs.Laws.{PutChangesOneNode, AcceptanceIsUnique, AcceptanceExists, OthersStay, OwnStays, HeldIsOfAnEntry, NoNodesAreTable, AcceptanceKeepsTable, MarksKeepTable, ForgettingKeepsTable, HeldWasBrought, MarkedWasHeld, RememberedWasHeld, TrueDataAreKept, ForgettingIsAMoment, NoneIsForgotten, UnlostStay};

use hn_tlv::{first_fault_is_unique, list_is_of_bytes, list_or_first_fault};

/// To put an entry changes what is held of its node, and of no other.
pub fn put_changes_one_node()
    ensures { PutChangesOneNode }
{}

/// What is held of a node is what one of the entries holds of it.
pub fn held_is_of_an_entry()
    ensures { HeldIsOfAnEntry }
{}

/// A node state that arrives has at most one answer, and the table after it is determined.
pub fn acceptance_is_unique()
    ensures { AcceptanceIsUnique }
{}

/// A node state that arrives has an answer, and there is a table after it. So there is exactly one of each.
pub fn acceptance_exists()
    ensures { AcceptanceExists }
{
    list_is_of_bytes();
    list_or_first_fault();
    first_fault_is_unique();
}

/// A node state changes what is held of its own node alone.
pub fn others_stay()
    ensures { OthersStay }
{}

/// No node state changes what is held of the router's own identifier.
pub fn own_stays()
    ensures { OwnStays }
{}

/// Whatever comes of a node state, a table stays one.
pub fn acceptance_keeps_table()
    ensures { AcceptanceKeepsTable }
{
    list_is_of_bytes();
    list_or_first_fault();
    first_fault_is_unique();
}

/// The empty list of nodes is a table, and a table stays one when its nodes are marked as lost and when some are
/// forgotten.
pub fn loss_keeps_table()
    ensures none { NoNodesAreTable }
    ensures marks { MarksKeepTable }
    ensures forgetting { ForgettingKeepsTable }
{}

/// What is held after a node state was held before, or the state brought it. Marks and forgetting leave number and data
/// of what is still held.
pub fn held_was_brought()
    ensures state { HeldWasBrought }
    ensures marks { MarkedWasHeld }
    ensures forgetting { RememberedWasHeld }
{}

/// Node data of another node that are newer are held, where there is room and they have the hash that their state says.
pub fn true_data_are_kept()
    ensures { TrueDataAreKept }
{}

/// Some node is forgotten from one moment on.
pub fn forgetting_is_a_moment()
    ensures { ForgettingIsAMoment }
{}

/// Forgetting changes nothing if and only if no node is forgotten, and what is held of a node that is not lost stays.
pub fn forgetting_leaves()
    ensures none { NoneIsForgotten }
    ensures unlost { UnlostStay }
{}
