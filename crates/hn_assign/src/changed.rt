//! Which nodes advertise otherwise than before.

ghost use Rattle.std.specs.Prelude.{◌≡◌, ◌∷◌, [], IsTrue, IfOk, OnOk, Contains};
ghost use Rattle.std.specs.List.Sorted.{IsStrictlySortedBy};
ghost use Rattle.std.specs.Ordering.{nat_cmp};
ghost use Rattle.hn_base.specs.NodeIds.{node_cmp};
ghost use Rattle.hn_data.specs.View.{ids_of};
ghost use Rattle.hn_assign.specs.Changed.{HasNodeOf, SaidSame, AreTold, AreChanged};

use crate::kept_index::advertise_same;
use hn_base::{NoMemory, NodeId, NodeIds, sort_to_set};
use hn_data::{Entry, place_of};
use std::alloc::Global;

/// Whether a node is among some.
fn is_there(nodes: &[Entry], node: &Entry) -> bool
    requires { IsStrictlySortedBy nat_cmp (ids_of nodes.now) }
    ensures { IsTrue result → HasNodeOf nodes.now node.now }
{
    place_of(nodes, node.id).is_some()
}

/// Whether a node advertised the same before.
fn said_same(before: &[Entry], node: &Entry) -> bool
    requires { IsStrictlySortedBy nat_cmp (ids_of before.now) }
    ensures { IsTrue result → SaidSame before.now node.now }
{
    match place_of(before, node.id) {
        Some(place) => advertise_same(&before[place], node),
        None => false,
    }
}

/// Adds a node of before, where it is gone.
fn add_if_gone(ids: &mut Vec<NodeId>, after: &[Entry], was: &Entry) -> Result<(), NoMemory>
    requires { IsStrictlySortedBy nat_cmp (ids_of after.now) }
    ensures { OnOk result (AreTold (HasNodeOf after.now) (was.now ∷ []) ids.old.items ids.new.items) }
{
    if is_there(after, was) {
        return Ok(());
    }
    ids.push(was.id)?;
    Ok(())
}

/// Adds the nodes of before that are gone.
fn add_gone(ids: &mut Vec<NodeId>, before: &[Entry], after: &[Entry]) -> Result<(), NoMemory>
    requires { IsStrictlySortedBy nat_cmp (ids_of after.now) }
    ensures { OnOk result (AreTold (HasNodeOf after.now) before.now ids.old.items ids.new.items) }
{
    for was in before {
        add_if_gone(ids, after, was)?;
    }
    Ok(())
}

/// Adds a node, where it did not advertise the same before.
fn add_if_other(ids: &mut Vec<NodeId>, before: &[Entry], node: &Entry) -> Result<(), NoMemory>
    requires { IsStrictlySortedBy nat_cmp (ids_of before.now) }
    ensures { OnOk result (AreTold (SaidSame before.now) (node.now ∷ []) ids.old.items ids.new.items) }
{
    if said_same(before, node) {
        return Ok(());
    }
    ids.push(node.id)?;
    Ok(())
}

/// Adds the nodes that did not advertise the same before.
fn add_others(ids: &mut Vec<NodeId>, before: &[Entry], after: &[Entry]) -> Result<(), NoMemory>
    requires { IsStrictlySortedBy nat_cmp (ids_of before.now) }
    ensures { OnOk result (AreTold (SaidSame before.now) after.now ids.old.items ids.new.items) }
{
    for node in after {
        add_if_other(ids, before, node)?;
    }
    Ok(())
}

/// The router's own node, and those that are gone, are new, or advertise otherwise than before.
pub(crate) fn changed_nodes(
    alloc: Global,
    own: NodeId,
    before: &[Entry],
    after: &[Entry],
) -> Result<NodeIds, NoMemory>
    requires before { IsStrictlySortedBy nat_cmp (ids_of before.now) }
    requires after { IsStrictlySortedBy nat_cmp (ids_of after.now) }
    ensures those { IfOk result (AreChanged own before.now after.now) }
    ensures ascending { IfOk result (IsStrictlySortedBy node_cmp) }
{
    let mut ids = Vec::new(alloc);
    ids.push(own)?;
    add_gone(&mut ids, before, after)?;
    add_others(&mut ids, before, after)?;
    sort_to_set(&mut ids);
    Ok(NodeIds::from(ids))
}

/// The router's own node alone.
pub(crate) fn own_node(alloc: Global, own: NodeId) -> Result<NodeIds, NoMemory>
    ensures those { IfOk result (λ ids. ids ≡ own ∷ []) }
    ensures ascending { IfOk result (IsStrictlySortedBy node_cmp) }
{
    let mut ids = Vec::new(alloc);
    ids.push(own)?;
    Ok(NodeIds::from(ids))
}
