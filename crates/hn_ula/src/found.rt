//! What a router finds out before it decides.

ghost use Rattle.std.specs.Prelude.{◌≡◌, ◌↔◌, [], IsTrue, false, IfOk, MatchOption};
ghost use Rattle.hn_rules.specs.Seen.{seen_by};
ghost use Rattle.hn_ula.specs.Ula.{IsForeign, MustGo, HasTwo, IsToAnnounce};
ghost use Rattle.hn_ula.specs.Said.{AreGenerated};
ghost use Rattle.hn_ula.specs.Found.{IsGreater, IsGreatestFound, HasOtherOf, HasPrefixAbove, IsForeignOne, HasForeign};
ghost use Rattle.hn_ula.specs.Found.{HasGreater, IsOwnFound, IsFound};

use crate::generated::{Generated, is_local, of_router};
use hn_base::{NoMemory, NodeId};
use hn_deleg::{Delegated, usable_is_unique};
use hn_prefix::Prefix;
use hn_router::Router;
use std::alloc::Global;

/// The router's greatest generated prefix, if it has one, and which conditions of the rule hold.
#[derive(Clone, Copy)]
pub(crate) struct Found {
    pub own: Option<Prefix>,
    pub must_go: bool,
    pub has_two: bool,
    pub is_to_announce: bool,
}

/// The greater of two prefixes, if there are two.
fn greater(so_far: Option<Prefix>, prefix: Prefix) -> Prefix
    ensures { MatchOption so_far (result ≡ prefix) (λ before. IsGreater before prefix result) }
{
    match so_far {
        Some(before) if prefix < before => before,
        _ => prefix,
    }
}

/// The greatest prefix of a node, if it has one.
fn greatest_of(list: &[Generated], node: NodeId) -> Option<Prefix>
    ensures { IsGreatestFound list.now node result }
{
    let mut greatest = None;
    for one in list {
        if one.node == node {
            greatest = Some(greater(greatest, one.prefix));
        }
    }
    greatest
}

/// Whether a node has another prefix.
fn has_other(list: &[Generated], node: NodeId, prefix: &Prefix) -> bool
    ensures { IsTrue result ↔ HasOtherOf list.now node prefix.now }
{
    list.iter()
        .any(|one| one.node == node && one.prefix != *prefix)
}

/// Whether a node with a greater identifier has one.
fn has_above(list: &[Generated], node: NodeId) -> bool
    ensures { IsTrue result ↔ HasPrefixAbove list.now node }
{
    list.iter().any(|one| node < one.node)
}

/// Whether a delegated prefix that is still preferred is not inside fd00::/8.
fn is_foreign(d: &Delegated) -> bool
    ensures { IsTrue result ↔ IsForeignOne d.now }
{
    d.preferred > 0 && !is_local(&d.prefix)
}

/// Whether one of them is so.
fn has_foreign(used: &[Delegated]) -> bool
    ensures { IsTrue result ↔ HasForeign used.now }
{
    used.iter().any(is_foreign)
}

/// Whether there is a foreign prefix.
fn foreign(alloc: Global, router: &Router) -> Result<bool, NoMemory>
    ensures { IfOk result (λ foreign. IsTrue foreign ↔ IsForeign (seen_by router.now)) }
{
    usable_is_unique();
    let used = router.used(alloc)?;
    Ok(has_foreign(used.as_slice()))
}

/// Whether a greater identifier is among these.
fn has_greater(reach: &[NodeId], own: NodeId) -> bool
    ensures { IsTrue result ↔ HasGreater reach.now own }
{
    reach.iter().any(|id| own < *id)
}

/// The router's greatest generated prefix, if it has one.
pub(crate) fn own(router: &Router, list: &[Generated]) -> Option<Prefix>
    requires { AreGenerated (seen_by router.now) list.now }
    ensures { IsOwnFound router.now result }
{
    greatest_of(list, router.id())
}

/// Whether the router has one, and there is a foreign prefix or a greater node has one.
fn must_go(router: &Router, list: &[Generated], own: &Option<Prefix>, foreign: bool) -> bool
    requires list { AreGenerated (seen_by router.now) list.now }
    requires own { IsOwnFound router.now own.now }
    requires foreign { IsTrue foreign ↔ IsForeign (seen_by router.now) }
    ensures { IsTrue result ↔ MustGo router.now }
{
    own.is_some() && (foreign || has_above(list, router.id()))
}

/// Whether the router has two.
fn has_two(router: &Router, list: &[Generated], own: &Option<Prefix>) -> bool
    requires list { AreGenerated (seen_by router.now) list.now }
    requires own { IsOwnFound router.now own.now }
    ensures { IsTrue result ↔ HasTwo router.now }
{
    match own {
        Some(own) => has_other(list, router.id(), own),
        None => false,
    }
}

/// Whether there is neither a generated nor a foreign prefix.
fn has_neither(list: &[Generated], foreign: bool) -> bool
    ensures { IsTrue result ↔ (list.now ≡ []) × (foreign ≡ false) }
{
    list.is_empty() && !foreign
}

/// Whether nobody has one, there is no foreign prefix, and no reachable node is greater.
fn is_to_announce(router: &Router, list: &[Generated], foreign: bool) -> bool
    requires list { AreGenerated (seen_by router.now) list.now }
    requires foreign { IsTrue foreign ↔ IsForeign (seen_by router.now) }
    ensures { IsTrue result ↔ IsToAnnounce router.now }
{
    has_neither(list, foreign) && !has_greater(router.reach(), router.id())
}

/// What a router finds out.
pub(crate) fn find(alloc: Global, router: &Router) -> Result<Found, NoMemory>
    ensures { IfOk result (IsFound router.now) }
{
    let list = of_router(alloc, router)?;
    let list = list.as_slice();
    let foreign = foreign(alloc, router)?;
    let own = own(router, list);
    let must_go = must_go(router, list, &own, foreign);
    let has_two = has_two(router, list, &own);
    let is_to_announce = is_to_announce(router, list, foreign);
    Ok(Found {
        own,
        must_go,
        has_two,
        is_to_announce,
    })
}
