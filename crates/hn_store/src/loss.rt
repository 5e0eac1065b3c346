ghost use Rattle.std.specs.Prelude.{◌≡◌, ℕ, false, IsTrue, length, map, count_by};
ghost use Rattle.std.specs.List.{list_any};
ghost use Rattle.std.specs.List.Sorted.{IsNonDecreasingBy};
ghost use Rattle.hn_base.specs.Sooner.{IsSooner};
ghost use Rattle.hn_store.specs.Due.{IsForgottenFrom, IsForgetting};
ghost use Rattle.hn_store.specs.Loss.{is_among, lost_after, is_to_mark, marked_node, loss_marked, is_forgotten, remembered};

use crate::stored::HeldNode;
use crate::table::Table;
use hn_base::{Moment, NodeId, sooner};

/// How long a node stays held that is not reachable, in milliseconds (RFC 7787, section 4.6; RFC 7788, section 3).
pub const GRACE: u64 = 42_000;

/// Whether identifiers do not fall from place to place.
fn ascend(ids: &[NodeId]) -> bool
    ensures { IsTrue result → IsNonDecreasingBy (λ id. id.0) ids.now }
{
    ids.is_sorted()
}

/// Whether a node is among these, by binary search where they ascend.
fn is_among(ids: &[NodeId], ascending: bool, node: NodeId) -> bool
    requires { IsTrue ascending → IsNonDecreasingBy (λ id. id.0) ids.now }
    ensures { result ≡ is_among ids.now node.0 }
{
    if ascending {
        ids.binary_search(&node).is_ok()
    } else {
        ids.contains(&node)
    }
}

/// The moment of loss of a node at a moment when it is reachable or not.
fn lost_after(reachable: bool, now: Moment, lost: Option<Moment>) -> Option<Moment>
    ensures { result ≡ lost_after reachable now lost }
{
    if reachable {
        None
    } else {
        Some(lost.unwrap_or(now))
    }
}

/// Gives nodes their moments of loss.
fn mark_each(nodes: &mut [HeldNode], reach: &[NodeId], now: Moment)
    ensures { nodes.new ≡ map (marked_node reach.now now) nodes.old }
{
    let ascending = ascend(reach);
    for node in nodes.iter_mut() {
        let reachable = is_among(reach, ascending, node.id);
        node.stored.lost = lost_after(reachable, now, node.stored.lost);
    }
}

/// Whether a node is lost for `GRACE` or more.
fn is_forgotten(node: &HeldNode, now: Moment) -> bool
    ensures { result ≡ is_forgotten now node.now }
{
    match node.stored.lost {
        Some(moment) => now.saturating_sub(moment) >= GRACE,
        None => false,
    }
}

/// The moment from which a node is forgotten, where that is after now and before `best`; else `best`.
fn next_forgotten(node: &HeldNode, now: Moment, best: Moment) -> Moment
    ensures { IsSooner (IsForgottenFrom node.now) now best result }
{
    match node.stored.lost {
        Some(moment) => sooner(now, best, moment.saturating_add(GRACE)),
        None => best,
    }
}

/// The first of these moments of nodes.
fn first_forgotten(nodes: &[HeldNode], now: Moment, best: Moment) -> Moment
    ensures { IsSooner (IsForgetting nodes.now) now best result }
{
    let mut first = best;
    for node in nodes {
        first = next_forgotten(node, now, first);
    }
    first
}

/// Whether the moment of loss of some node is to change.
fn has_to_mark(nodes: &[HeldNode], reach: &[NodeId]) -> bool
    ensures { result ≡ list_any (is_to_mark reach.now) nodes.now }
{
    let ascending = ascend(reach);
    nodes.iter().any(|node| is_among(reach, ascending, node.id) == node.stored.lost.is_some())
}

/// Whether some node is lost for `GRACE` or more.
fn has_forgotten(nodes: &[HeldNode], now: Moment) -> bool
    ensures { result ≡ list_any (is_forgotten now) nodes.now }
{
    nodes.iter().any(|node| is_forgotten(node, now))
}

impl Table {
    /// Marks which of the nodes are reachable at a moment, by the identifiers of those that are: the others are lost,
    /// and each keeps the first moment at which it was (RFC 7787, section 4.6). Fastest where the identifiers are in
    /// ascending order. Never allocates.
    pub fn mark(&mut self, reach: &[NodeId], now: Moment)
        ensures { self.new ≡ loss_marked reach.now now self.old }
    {
        mark_each(&mut self.nodes, reach, now);
    }

    /// Whether `mark` would change something. Never allocates.
    pub fn needs_mark(&self, reach: &[NodeId]) -> bool
        ensures needed { result ≡ list_any (is_to_mark reach.now) self.now.entries }
        ensures unneeded { result ≡ false → (now : ℕ) → loss_marked reach.now now self.now ≡ self.now }
    {
        has_to_mark(&self.nodes, reach)
    }

    /// Removes the nodes that are lost for 42,000 ms or more (RFC 7787, section 4.6), and answers how many these were.
    /// Never allocates.
    pub fn forget(&mut self, now: Moment) -> usize
        ensures nodes { self.new ≡ remembered now self.old }
        ensures count { result ≡ count_by (is_forgotten now) self.old.entries }
    {
        let before = self.nodes.len();
        self.nodes.retain(|node| !is_forgotten(node, now));
        before - self.nodes.len()
    }

    /// Whether `forget` would remove something. Never allocates.
    pub fn needs_forget(&self, now: Moment) -> bool
        ensures needed { result ≡ list_any (is_forgotten now) self.now.entries }
        ensures unneeded { result ≡ false → remembered now self.now ≡ self.now }
    {
        has_forgotten(&self.nodes, now)
    }

    /// The first moment after now and before `best` from which a node is forgotten, if it stays lost; else `best`.
    /// Never allocates.
    pub fn next_forgetting(&self, now: Moment, best: Moment) -> Moment
        ensures { IsSooner (IsForgetting self.now.entries) now best result }
    {
        first_forgotten(&self.nodes, now, best)
    }
}
