//! The parts of the search for reachable nodes. A node is named by its place among all nodes.

ghost use Rattle.std.specs.Prelude.{◌≡◌, ◌<◌, ◌≤◌, ◌↔◌, ℕ, length, All, IfOk, IfErr, OnOk, IfSome, IfNone, IsTrue, Some, false, slice_get};
ghost use Rattle.std.specs.List.{Contains};
ghost use Rattle.std.specs.List.Sorted.{IsStrictlySortedBy};
ghost use Rattle.std.specs.Ordering.{nat_cmp};
ghost use Rattle.hn_base.specs.NodeIds.{node_cmp};
ghost use Rattle.hn_base.specs.declared.ids.NodeId.{NodeId};
ghost use Rattle.hn_data.specs.Links.{IsPeerAt};
ghost use Rattle.hn_data.specs.Peers.{HasPeer, peer_link};
ghost use Rattle.hn_data.specs.View.{ids_of};
ghost use Rattle.hn_graph.specs.Search.{IsPlaceMarked, ArePlacesNext, HasMarked, HasFound, AreBelow, AreAbove};

use hn_base::{NoMemory, NodeId, NodeIds, is_in_set};
use hn_data::{Entry, PeerLink};
use std::alloc::Global;

/// From this age on, in milliseconds, the peers that a node says it has no longer count (RFC 7787, section 4.6).
pub const AGE_LIMIT: u64 = (1 << 32) - (1 << 15);

/// Whether the nodes before a place are below a node. Never allocates.
fn are_below(nodes: &[Entry], place: usize, id: NodeId) -> bool
    requires ascending { IsStrictlySortedBy nat_cmp (ids_of nodes.now) }
    requires within { place ≤ length nodes.now }
    ensures { IsTrue result → AreBelow (ids_of nodes.now) place id.0 }
{
    place == 0 || nodes[place - 1].id.0 < id.0
}

/// Whether the nodes from a place on are above a node. Never allocates.
fn are_above(nodes: &[Entry], place: usize, id: NodeId) -> bool
    requires ascending { IsStrictlySortedBy nat_cmp (ids_of nodes.now) }
    requires within { place ≤ length nodes.now }
    ensures { IsTrue result → AreAbove (ids_of nodes.now) place id.0 }
{
    place == nodes.len() || id.0 < nodes[place].id.0
}

/// Whether a node is not among nodes, since it would stand at a place. Never allocates.
fn is_gap(nodes: &[Entry], place: usize, id: NodeId) -> bool
    requires { IsStrictlySortedBy nat_cmp (ids_of nodes.now) }
    ensures { IsTrue result → ¬ (Contains (ids_of nodes.now) id.0) }
{
    if place > nodes.len() {
        return false;
    }
    are_below(nodes, place, id) && are_above(nodes, place, id)
}

/// The place of a node, by binary search, or where it would stand. Never allocates.
fn search(nodes: &[Entry], id: NodeId) -> Result<usize, usize>
    requires { IsStrictlySortedBy nat_cmp (ids_of nodes.now) }
    ensures found { IfOk result (λ place. (place < length nodes.now) × (slice_get (ids_of nodes.now) place ≡ Some id.0)) }
    ensures absent { IfErr result (λ _. ¬ (Contains (ids_of nodes.now) id.0)) }
{
    nodes.binary_search_by_key(&id.0, |node| node.id.0)
}

/// The place of a node, which is looked for at a place first. That place moves to where the search ends, so where nodes are
/// looked for in ascending order, most are found at once. Never allocates.
fn next_to(nodes: &[Entry], place: &mut usize, id: NodeId) -> Option<usize>
    requires { IsStrictlySortedBy nat_cmp (ids_of nodes.now) }
    ensures within { IfSome result (λ place. place < length nodes.now) }
    ensures found { IfSome result (λ place. slice_get (ids_of nodes.now) place ≡ Some id.0) }
    ensures absent { IfNone result (¬ (Contains (ids_of nodes.now) id.0)) }
{
    let first = *place;
    if first < nodes.len() && nodes[first].id == id {
        *place = first + 1;
        return Some(first);
    }
    if is_gap(nodes, first, id) {
        return None;
    }
    match search(nodes, id) {
        Ok(at) => {
            *place = at + 1;
            Some(at)
        }
        Err(at) => {
            *place = at;
            None
        }
    }
}

/// Whether the node at a place says that it has the node that says this link. Never allocates.
fn says_back(node: &Entry, link: &PeerLink, peer: &Entry) -> bool
    ensures { IsTrue result ↔ HasPeer peer.now.body (peer_link node.now.id.0 link.now.endpoint.0 link.now.peer_endpoint.0) }
{
    let back = PeerLink {
        endpoint: link.peer_endpoint,
        peer: node.id,
        peer_endpoint: link.endpoint,
    };
    is_in_set(peer.body.peers(), &back)
}

/// The place to which a link of a node leads, where that place is not marked yet. Its node is looked for at a place first,
/// which moves on. Never allocates.
fn open_place(
    nodes: &[Entry],
    node: &Entry,
    link: &PeerLink,
    found: &[bool],
    near: &mut usize,
) -> Option<usize>
    requires ascending { IsStrictlySortedBy nat_cmp (ids_of nodes.now) }
    requires marks { length found.now ≡ length nodes.now }
    requires said { HasPeer node.now.body link.now }
    ensures found { IfSome result (IsPeerAt nodes.now node.now link.now) }
    ensures absent { IfNone result ((place : ℕ) → IsPeerAt nodes.now node.now link.now place → IsPlaceMarked found.now place) }
{
    let Some(place) = next_to(nodes, near, link.peer) else {
        return None;
    };
    if found[place] {
        return None;
    }
    if says_back(node, link, &nodes[place]) {
        Some(place)
    } else {
        None
    }
}

/// The places that are not marked yet to which a path may go from the node; they take the place of others. Where none
/// is left to mark, none is looked for.
pub(crate) fn next_places(
    nodes: &[Entry],
    node: &Entry,
    found: &[bool],
    left: bool,
    places: &mut Vec<usize>,
) -> Result<(), NoMemory>
    requires ascending { IsStrictlySortedBy nat_cmp (ids_of nodes.now) }
    requires marks { length found.now ≡ length nodes.now }
    requires none_left { left ≡ false → (place : ℕ) → place < length found.now → IsPlaceMarked found.now place }
    ensures { OnOk result (ArePlacesNext nodes.now node.now found.now places.new.items) }
{
    places.clear();
    if !left {
        return Ok(());
    }
    if node.age >= AGE_LIMIT {
        return Ok(());
    }
    let mut near = 0;
    for link in node.body.peers() {
        if let Some(place) = open_place(nodes, node, link, found, &mut near) {
            places.push(place)?;
        }
    }
    Ok(())
}

/// Marks the places; those that were not marked before are to be visited.
pub(crate) fn mark(
    places: &[usize],
    found: &mut Vec<bool>,
    visits: &mut Vec<usize>,
) -> Result<(), NoMemory>
    requires { All (λ place. place < length found.old.items) places.now }
    ensures { OnOk result (HasMarked places.now found.old.items visits.old.items found.new.items visits.new.items) }
{
    for place in places {
        if !found[*place] {
            found[*place] = true;
            visits.push(*place)?;
        }
    }
    Ok(())
}

/// The identifiers of the nodes that are marked.
pub(crate) fn found_ids(alloc: Global, nodes: &[Entry], found: &[bool]) -> Result<NodeIds, NoMemory>
    requires ascending { IsStrictlySortedBy nat_cmp (ids_of nodes.now) }
    requires marks { length found.now ≡ length nodes.now }
    ensures ascending { IfOk result (IsStrictlySortedBy node_cmp) }
    ensures exact { IfOk result (λ ids. (id : NodeId) → Contains ids id ↔ HasFound nodes.now found.now id) }
{
    let mut ids = Vec::with_capacity(alloc, nodes.len())?;
    for (place, node) in nodes.iter().enumerate() {
        let is_found = found[place];
        if is_found {
            ids.push(node.id)?;
        }
    }
    Ok(NodeIds::from(ids))
}
