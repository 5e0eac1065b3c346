//! Whether the routers of a set know each other as they are, and the first that does not.

ghost use Rattle.std.specs.Prelude.{◌≡◌, ◌≢◌, ◌↔◌, ◌<◌, length, IsTrue, IfOk};
ghost use Rattle.hn_deleg.specs.Used.{AreUsable};
ghost use Rattle.hn_rules.specs.declared.state.State.{State};
ghost use Rattle.hn_rules.specs.Seen.{seen_by};
ghost use Rattle.hn_store.specs.Nodes.{held};
ghost use Rattle.hn_audit.specs.First.{IsFirstFound};
ghost use Rattle.hn_audit.specs.FirstWitness.{unheld_of, FindsReach, FindsHeld, FindsUsed, FindsAlike};
ghost use Rattle.hn_audit.specs.Set.{AreSameAt, members_of};
ghost use Rattle.hn_audit.specs.Settled.{AreSame, HoldsState, UseSame};

use crate::witness::Unsettled;
use hn_base::{NoMemory, NodeId};
use hn_deleg::{Delegated, usable_is_unique, wanted};
use hn_router::Router;
use hn_world::Member;
use std::alloc::Global;

/// Whether a router reaches these nodes.
fn reaches(s: &Router, reach: &[NodeId]) -> bool
    ensures { IsTrue result ↔ (s.now.reach ≡ reach.now) }
{
    *s.reach() == *reach
}

/// The first router of a set that reaches other nodes than these.
fn first_of_other_reach(set: &[&Member], reach: &[NodeId]) -> Option<Unsettled>
    ensures { IsFirstFound (FindsReach reach.now) (members_of set.now) result }
{
    for s in set {
        if !reaches(&s.router, reach) {
            return Some(Unsettled::OtherReach { router: s.name });
        }
    }
    None
}

/// Whether a router holds exactly the sequence number and the node data of another one.
fn holds(s: &Router, u: &Router) -> bool
    ensures { IsTrue result ↔ HoldsState s.now u.now }
{
    match s.table().get(u.id()) {
        Some(stored) => stored.number == u.number() && *stored.body.bytes() == *u.body().bytes(),
        None => false,
    }
}

/// Whether a router holds the other one, or both have one identifier.
fn holds_other(s: &Router, u: &Router) -> bool
    ensures { IsTrue result ↔ (s.now.id ≢ u.now.id → HoldsState s.now u.now) }
{
    s.id() == u.id() || holds(s, u)
}

/// What is wrong with what a router holds of another one.
fn unheld(s: &Member, u: &Member) -> Unsettled
    ensures { result ≡ unheld_of s.now u.now (held s.now.router.table.entries u.now.router.id.0) }
{
    let node = u.router.id();
    match s.router.table().get(node) {
        Some(stored) => Unsettled::OldData {
            router: s.name,
            node,
            holds: stored.number,
            current: u.router.number(),
        },
        None => Unsettled::NotHeld {
            router: s.name,
            node,
        },
    }
}

/// The first other one of a set that a router does not hold.
fn first_unheld(s: &Member, set: &[&Member]) -> Option<Unsettled>
    ensures { IsFirstFound (FindsHeld s.now) (members_of set.now) result }
{
    for u in set {
        if !holds_other(&s.router, &u.router) {
            return Some(unheld(s, u));
        }
    }
    None
}

/// The first router of a set that does not hold each other one.
fn first_not_holding(set: &[&Member]) -> Option<Unsettled>
    ensures { IsFirstFound (λ s. IsFirstFound (FindsHeld s) (members_of set.now)) (members_of set.now) result }
{
    for s in set {
        if let Some(found) = first_unheld(s, set) {
            return Some(found);
        }
    }
    None
}

/// Whether at a place two lists of usable prefixes have the same prefix, wanted in both or in none.
fn are_same_at(a: &[Delegated], b: &[Delegated], place: usize) -> bool
    requires left { place < length a.now }
    requires right { place < length b.now }
    ensures { IsTrue result ↔ AreSameAt a.now b.now place }
{
    a[place].prefix == b[place].prefix && wanted(a, place) == wanted(b, place)
}

/// Whether two lists of usable prefixes have the same prefixes, with the same ones wanted.
fn are_same(a: &[Delegated], b: &[Delegated]) -> bool
    ensures { IsTrue result ↔ AreSame a.now b.now }
{
    if a.len() != b.len() {
        return false;
    }
    for place in 0..a.len() {
        if !are_same_at(a, b, place) {
            return false;
        }
    }
    true
}

/// Whether a router uses and wants these delegated prefixes.
fn uses_these(alloc: Global, used: &[Delegated], s: &Router) -> Result<bool, NoMemory>
    ensures { IfOk result (λ answer. (r : State) → AreUsable (seen_by r) used.now → IsTrue answer ↔ UseSame r s.now) }
{
    usable_is_unique();
    let other = s.used(alloc)?;
    Ok(are_same(used, other.as_slice()))
}

/// The first router of a set that uses or wants other delegated prefixes than this one.
fn first_with_others(
    alloc: Global,
    r: &Member,
    set: &[&Member],
) -> Result<Option<Unsettled>, NoMemory>
    ensures { IfOk result (IsFirstFound (FindsUsed r.now) (members_of set.now)) }
{
    let used = r.router.used(alloc)?;
    for s in set {
        if !uses_these(alloc, used.as_slice(), &s.router)? {
            return Ok(Some(Unsettled::OtherPrefixes {
                router: r.name,
                other: s.name,
            }));
        }
    }
    Ok(None)
}

/// The first two routers of a set that use or want other delegated prefixes. If all do as the first one, there are none.
fn first_using_others(alloc: Global, set: &[&Member]) -> Result<Option<Unsettled>, NoMemory>
    ensures { IfOk result (IsFirstFound (λ s. IsFirstFound (FindsUsed s) (members_of set.now)) (members_of set.now)) }
{
    usable_is_unique();
    match set {
        [] => Ok(None),
        [first, ..] => first_with_others(alloc, first, set),
    }
}

/// The first router of a set that reaches other nodes than these, or else does not hold each other one, or else uses or
/// wants other delegated prefixes.
pub(crate) fn first_unlike(
    alloc: Global,
    set: &[&Member],
    reach: &[NodeId],
) -> Result<Option<Unsettled>, NoMemory>
    ensures { IfOk result (FindsAlike reach.now (members_of set.now)) }
{
    if let Some(found) = first_of_other_reach(set, reach) {
        return Ok(Some(found));
    }
    if let Some(found) = first_not_holding(set) {
        return Ok(Some(found));
    }
    first_using_others(alloc, set)
}
