//! The index of the advertised prefixes, kept for as long as a router sees and holds the same.

ghost use Rattle.std.specs.Prelude.{◌≡◌, ◌↔◌, IsTrue, IfOk, IfSome};
ghost use Rattle.hn_data.specs.Said.{HasVersion};
ghost use Rattle.hn_data.specs.View.{plain_view, IsNetwork};
ghost use Rattle.hn_assign.specs.Alike.{AdvertisesAs, AdvertiseAlike};
ghost use Rattle.hn_assign.specs.Gathered.{AreAdvertised};

use crate::changed::changed_nodes;
use crate::index::Index;
use crate::renewing::renewed;
use hn_base::{NoMemory, NodeId, Shared};
use hn_data::{AssignedPrefix, Entry, NodeData, View, version};
use hn_pair::{Assigned, Held};
use std::alloc::Global;
use std::marker::Model;

/// An index of advertised prefixes, and what they were gathered from. It serves again for as long as the reachable nodes
/// and the router advertise the same. Contracts see nothing of it.
#[derive(Drop)]
pub struct KeptIndex {
    own: NodeId,
    nodes: Vec<Entry>,
    assigned: Vec<Assigned>,
    index: Shared<Index>,
}

impl Model for KeptIndex {
    ghost use Rattle.hn_assign.specs.Renewed.{IsKept};

    ghost Value = { Unit {0} };

    ghost view = { λ k. tt };

    ghost invariant = { λ k. IsKept k.own.0 k.nodes.items k.assigned.items k.index };
}

/// Whether two lists have the same assigned prefixes.
fn say_same(a: &[AssignedPrefix], b: &[AssignedPrefix]) -> bool
    ensures { IsTrue result ↔ (a.now ≡ b.now) }
{
    a == b
}

/// Whether two lists have the same assignments. Never allocates.
pub fn same_assigned(a: &[Assigned], b: &[Assigned]) -> bool
    ensures { IsTrue result ↔ (a.now ≡ b.now) }
{
    a == b
}

/// Whether node data have an HNCP-Version.
fn has_version(body: &NodeData) -> bool
    ensures { IsTrue result ↔ HasVersion body.now }
{
    version(body).is_some()
}

/// Whether two identifiers are the same.
fn is_same(a: NodeId, b: NodeId) -> bool
    ensures { IsTrue result → a ≡ b }
{
    a == b
}

/// Whether both of two node data have an HNCP-Version, or neither.
fn are_versions_alike(a: &NodeData, b: &NodeData) -> bool
    ensures { IsTrue result → HasVersion a.now ↔ HasVersion b.now }
{
    let a_has = has_version(a);
    let b_has = has_version(b);
    if a_has { b_has } else { !b_has }
}

/// Whether two nodes advertise the same. Never allocates.
pub(crate) fn advertise_same(a: &Entry, b: &Entry) -> bool
    ensures { IsTrue result → AdvertisesAs a.now b.now }
{
    if is_same(b.id, a.id) {
        if are_versions_alike(&a.body, &b.body) {
            return say_same(a.body.assigned(), b.body.assigned());
        }
    }
    false
}

/// Whether nodes advertise the same, place by place. Never allocates.
fn advertise_alike(before: &[Entry], after: &[Entry]) -> bool
    ensures { IsTrue result → AdvertiseAlike before.now after.now }
{
    if before.len() != after.len() {
        return false;
    }
    for place in 0..before.len() {
        if !advertise_same(&before[place], &after[place]) {
            return false;
        }
    }
    true
}

/// The same nodes, which share the memory of their data.
fn copies(alloc: Global, nodes: &[Entry]) -> Result<Vec<Entry>, NoMemory>
    ensures { IfOk result (λ copies. copies.items ≡ nodes.now) }
{
    let mut copies = Vec::with_capacity(alloc, nodes.len())?;
    for node in nodes {
        copies.push(node.copy()?)?;
    }
    Ok(copies)
}

/// Whether a router sees and holds the same.
fn are_alike(
    own: NodeId,
    nodes: &[Entry],
    assigned: &[Assigned],
    view: &View<'_>,
    held: &Held,
) -> bool
    ensures { IsTrue result → (own ≡ view.entry.now.own) × (assigned.now ≡ held.now.assigned) × AdvertiseAlike nodes.now view.entry.now.nodes.now }
{
    if is_same(own, view.own) {
        if same_assigned(assigned, held.assigned.as_slice()) {
            return advertise_alike(nodes, view.nodes);
        }
    }
    false
}

impl KeptIndex {
    /// An index of nothing, which serves no router.
    pub(crate) fn nothing(alloc: Global) -> Result<KeptIndex, NoMemory> {
        let none = Vec::new(alloc);
        let known = Index::merged(alloc, none)?;
        let index = Shared::new(alloc, known)?;
        let nodes = Vec::new(alloc);
        let assigned = Vec::new(alloc);
        Ok(KeptIndex {
            own: NodeId(0),
            nodes,
            assigned,
            index,
        })
    }

    /// Whether it is of no node.
    pub(crate) fn is_of_nothing(&self) -> bool {
        self.nodes.is_empty()
    }

    /// An index of what a router sees and holds.
    pub(crate) fn of(
        alloc: Global,
        view: &View<'_>,
        held: &Held,
        index: Shared<Index>,
    ) -> Result<KeptIndex, NoMemory>
        requires network { IsNetwork view.now.own.0 view.now.nodes.now }
        requires index { AreAdvertised (plain_view view.now) held.now.assigned index }
    {
        let nodes = copies(alloc, view.nodes)?;
        let assigned = Vec::from_slice(alloc, held.assigned.as_slice())?;
        Ok(KeptIndex {
            own: view.own,
            nodes,
            assigned,
            index,
        })
    }

    /// The index, if it is of what a router sees and holds.
    pub(crate) fn serve(
        &self,
        view: &View<'_>,
        held: &Held,
    ) -> Result<Option<Shared<Index>>, NoMemory>
        ensures { IfOk result (λ found. IfSome found (AreAdvertised (plain_view view.entry.now) held.now.assigned)) }
    {
        if are_alike(self.own, &self.nodes, &self.assigned, view, held) {
            return Ok(Some(self.index.clone()?));
        }
        Ok(None)
    }

    /// An index of what a router sees and holds: this one renewed, where it is of many and of the same router.
    pub(crate) fn renewed(
        &self,
        alloc: Global,
        view: &View<'_>,
        held: &Held,
    ) -> Result<Index, NoMemory>
        requires { IsNetwork view.now.own.0 view.now.nodes.now }
        ensures { IfOk result (AreAdvertised (plain_view view.entry.now) held.now.assigned) }
    {
        if is_same(self.own, view.own) {
            let known = self.index.get();
            if known.is_ordered() {
                let changed = changed_nodes(alloc, view.own, &self.nodes, view.nodes)?;
                return renewed(alloc, known.as_slice(), &changed, view, held);
            }
        }
        Index::gather(alloc, view, held)
    }
}
