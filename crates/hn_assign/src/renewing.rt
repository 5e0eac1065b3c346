//! The index of the advertised prefixes, renewed: what unchanged nodes advertise is taken as it stands in the index of before.

ghost use Rattle.std.specs.Prelude.{◌≡◌, ◌↔◌, ◌⊎◌, ◌≤◌, ◌∷◌, ◌++◌, [], drop, length, IsTrue, IfOk, OnOk, Contains};
ghost use Rattle.std.specs.List.Sorted.{IsStrictlySortedBy};
ghost use Rattle.hn_base.specs.NodeIds.{node_cmp};
ghost use Rattle.hn_data.specs.declared.view.Entry.{Entry};
ghost use Rattle.hn_data.specs.View.{plain_view};
ghost use Rattle.hn_assign.specs.declared.advertised.Advertised.{Advertised};
ghost use Rattle.hn_assign.specs.Gathered.{AreAdvertised};
ghost use Rattle.hn_assign.specs.Renewed.{HasOfUnchanged, IsOfChanged, IsOfUnchanged, IsAnew};

use crate::advertised::Advertised;
use crate::gathering::{add_other, add_own};
use crate::index::{Index, merge_by_bits};
use hn_base::{NoMemory, NodeId, NodeIds};
use hn_data::{Entry, View};
use hn_pair::Held;
use std::alloc::Global;

/// Adds what a node advertises, where it is one of these.
fn add_if_changed(
    items: &mut Vec<Advertised>,
    own: NodeId,
    node: &Entry,
    changed: &NodeIds,
) -> Result<(), NoMemory>
    requires { IsStrictlySortedBy node_cmp changed.now }
    ensures { OnOk result ((a : Advertised) → Contains items.new.items a
        ↔ (Contains items.old.items a ⊎ IsOfChanged own.0 changed.now node.now a)) }
{
    if !changed.contains(node.id) {
        return Ok(());
    }
    add_other(items, own, node)
}

/// Adds what those of these nodes advertise that are other ones.
fn add_changed(
    items: &mut Vec<Advertised>,
    own: NodeId,
    nodes: &[Entry],
    changed: &NodeIds,
) -> Result<(), NoMemory>
    requires { IsStrictlySortedBy node_cmp changed.now }
    ensures { OnOk result ((a : Advertised) → Contains items.new.items a
        ↔ (Contains items.old.items a ⊎ ((entry : Entry) × Contains nodes.now entry × IsOfChanged own.0 changed.now entry a))) }
{
    for node in nodes {
        add_if_changed(items, own, node, changed)?;
    }
    Ok(())
}

/// What these nodes and the router itself advertise, in ascending order by the bits.
fn fresh(
    alloc: Global,
    view: &View<'_>,
    changed: &NodeIds,
    held: &Held,
) -> Result<Vec<Advertised>, NoMemory>
    requires { IsStrictlySortedBy node_cmp changed.now }
    ensures { IfOk result (λ fresh. (a : Advertised) → Contains fresh.items a
        ↔ IsAnew (plain_view view.entry.now) changed.now held.now.assigned a) }
{
    let mut items = Vec::new(alloc);
    add_changed(&mut items, view.own, view.nodes, changed)?;
    add_own(&mut items, view.own, held.assigned.as_slice())?;
    merge_by_bits(&mut items)?;
    Ok(items)
}

/// Adds those from a place on that come before these bits: the place of the next one.
fn add_below(
    all: &mut Vec<Advertised>,
    fresh: &[Advertised],
    next: usize,
    bits: u128,
) -> Result<usize, NoMemory>
    requires { next ≤ length fresh.now }
    ensures within { IfOk result (λ place. place ≤ length fresh.now) }
    ensures moved { IfOk result (λ place. all.new.items ++ drop place fresh.now ≡ all.old.items ++ drop next fresh.now) }
{
    for place in next..fresh.len() {
        if bits <= fresh[place].prefix.bits() {
            return Ok(place);
        }
        all.push(fresh[place])?;
    }
    Ok(fresh.len())
}

/// Adds what is known of an unchanged node, and before it those from a place on that come first: the place of the next one.
fn add_known(
    all: &mut Vec<Advertised>,
    fresh: &[Advertised],
    next: usize,
    changed: &NodeIds,
    a: &Advertised,
) -> Result<usize, NoMemory>
    requires ascending { IsStrictlySortedBy node_cmp changed.now }
    requires within { next ≤ length fresh.now }
    ensures within { IfOk result (λ place. place ≤ length fresh.now) }
    ensures those { IfOk result (λ place. (x : Advertised) → Contains (all.new.items ++ drop place fresh.now) x
        ↔ (Contains (all.old.items ++ drop next fresh.now) x ⊎ IsOfUnchanged changed.now a.now x)) }
{
    if changed.contains(a.key.node) {
        return Ok(next);
    }
    let place = add_below(all, fresh, next, a.prefix.bits())?;
    all.push(*a)?;
    Ok(place)
}

/// What is known of unchanged nodes, and all that is fresh. Where both are in ascending order by the bits, so is it.
fn joined(
    alloc: Global,
    known: &[Advertised],
    changed: &NodeIds,
    fresh: &[Advertised],
) -> Result<Vec<Advertised>, NoMemory>
    requires { IsStrictlySortedBy node_cmp changed.now }
    ensures { IfOk result (λ all. (a : Advertised) → Contains all.items a
        ↔ (Contains fresh.now a ⊎ ((k : Advertised) × Contains known.now k × IsOfUnchanged changed.now k a))) }
{
    let mut all = Vec::with_capacity(alloc, known.len() + fresh.len())?;
    let mut next = 0;
    for a in known {
        next = add_known(&mut all, fresh, next, changed, a)?;
    }
    all.extend_from_slice(&fresh[next..])?;
    Ok(all)
}

/// An index of what a router sees and holds, from one that has what unchanged nodes advertise.
///
/// What they advertise stands in order already: only what the others do is brought into order, and put between.
pub(crate) fn renewed(
    alloc: Global,
    known: &[Advertised],
    changed: &NodeIds,
    view: &View<'_>,
    held: &Held,
) -> Result<Index, NoMemory>
    requires ascending { IsStrictlySortedBy node_cmp changed.now }
    requires known { HasOfUnchanged view.now.own.0 view.now.nodes.now changed.now known.now }
    ensures { IfOk result (AreAdvertised (plain_view view.entry.now) held.now.assigned) }
{
    let fresh = fresh(alloc, view, changed, held)?;
    let all = joined(alloc, known, changed, &fresh)?;
    Index::merged(alloc, all)
}
