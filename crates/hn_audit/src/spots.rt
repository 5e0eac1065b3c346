//! Where the routers of a set are attached, and whether they know it.

ghost use Rattle.std.specs.Prelude.{◌≡◌, ◌↔◌, ◌++◌, IsTrue, IfOk, OnOk, MatchBool};
ghost use Rattle.std.specs.Option.{option_map};
ghost use Rattle.hn_audit.specs.First.{IsFirstFound};
ghost use Rattle.hn_audit.specs.FirstWitness.{FindsNear, FindsStranger, IsSeenPair, IsUnseenPair, FindsUnseen, IsTrueOf, IsUntrueOf, FindsUntrue, FindsOfPeers, FindsOnLinks};
ghost use Rattle.hn_audit.specs.Reached.{AreOnOneLink};
ghost use Rattle.hn_audit.specs.Set.{members_of, plain_spot, plain_spots, spot_at, spots_at, spots_in, HasOn, IsNearLink};
ghost use Rattle.hn_audit.specs.Settled.{AreLinkedByRules, IsSameEndpoint};

use crate::reached::is_in_set;
use crate::witness::Unsettled;
use hn_base::{EpId, NoMemory, NodeId};
use hn_data::{PeerLink, linked};
use hn_router::Router;
use hn_world::{Attachment, Member, World};
use std::alloc::Global;

/// An endpoint of a router that is attached to a link.
#[derive(Clone, Copy)]
pub(crate) struct Spot<'a> {
    pub(crate) member: &'a Member,
    pub(crate) endpoint: EpId,
    pub(crate) link: usize,
}

/// What the endpoint of an attachment is attached to.
fn spot_at<'a>(member: &'a Member, a: &Attachment) -> Option<Spot<'a>>
    ensures { option_map plain_spot result ≡ spot_at member.now a.now }
{
    let link = member.link_of(a.endpoint)?;
    Some(Spot {
        member,
        endpoint: a.endpoint,
        link,
    })
}

/// Adds the attached endpoints of a router.
fn add_spots<'a>(spots: &mut Vec<Spot<'a>>, member: &'a Member) -> Result<(), NoMemory>
    ensures { OnOk result (plain_spots spots.new.items ≡ plain_spots spots.old.items ++ spots_at member.now) }
{
    for a in member.attachments.as_slice() {
        let spot = spot_at(member, a);
        if let Some(spot) = spot {
            spots.push(spot)?;
        }
    }
    Ok(())
}

/// The attached endpoints of the routers of a set.
pub(crate) fn spots_of<'a>(alloc: Global, set: &[&'a Member]) -> Result<Vec<Spot<'a>>, NoMemory>
    ensures { IfOk result (λ spots. plain_spots spots.items ≡ spots_in (members_of set.now)) }
{
    let mut spots = Vec::new(alloc);
    for member in set {
        add_spots(&mut spots, member)?;
    }
    Ok(spots)
}

/// Whether some of these attached endpoints is on a link.
fn is_one_on(spots: &[Spot<'_>], link: usize) -> bool
    ensures { IsTrue result ↔ HasOn (plain_spots spots.now) link }
{
    spots.iter().any(|spot| spot.link == link)
}

/// The link to which an endpoint of a router is attached, if it is one of these.
fn near_link(member: &Member, endpoint: EpId, spots: &[Spot<'_>]) -> Option<usize>
    ensures { IsNearLink (plain_spots spots.now) member.now endpoint result }
{
    let link = member.link_of(endpoint)?;
    if is_one_on(spots, link) {
        Some(link)
    } else {
        None
    }
}

/// The first attachment of a router to a link of these.
fn first_near(member: &Member, spots: &[Spot<'_>]) -> Option<Unsettled>
    ensures { IsFirstFound (FindsNear (plain_spots spots.now) member.now) member.now.attachments result }
{
    for a in member.attachments.as_slice() {
        if let Some(link) = near_link(member, a.endpoint, spots) {
            return Some(Unsettled::Stranger {
                router: member.name,
                endpoint: a.endpoint,
                link,
            });
        }
    }
    None
}

/// Whether a router runs, is not in the set, and is on a link of these.
fn stranger(member: &Member, reach: &[NodeId], spots: &[Spot<'_>]) -> Option<Unsettled>
    ensures { FindsStranger reach.now (plain_spots spots.now) member.now result }
{
    if !member.running || is_in_set(member, reach) {
        return None;
    }
    first_near(member, spots)
}

/// The first running router on a link of these that is not in the set.
fn first_stranger(world: &World, reach: &[NodeId], spots: &[Spot<'_>]) -> Option<Unsettled>
    ensures { IsFirstFound (FindsStranger reach.now (plain_spots spots.now)) world.now.parts.members result }
{
    for m in world.members() {
        if let Some(found) = stranger(m, reach, spots) {
            return Some(found);
        }
    }
    None
}

/// Whether endpoints of two routers are attached to one link. Never allocates.
pub fn are_on_one_link(s: &Member, e: EpId, u: &Member, f: EpId) -> bool
    ensures { IsTrue result ↔ AreOnOneLink s.now e u.now f }
{
    match (s.link_of(e), u.link_of(f)) {
        (Some(link), Some(other)) => link == other,
        _ => false,
    }
}

/// Whether endpoints of two routers are linked, as their node data say.
fn are_linked(s: &Router, e: EpId, u: &Router, f: EpId) -> bool
    ensures { IsTrue result ↔ AreLinkedByRules s.now e u.now f }
{
    linked(s.body(), s.id(), e, u.body(), u.id(), f)
}

/// Whether two endpoints are the same.
fn is_same(s: &Router, e: EpId, u: &Router, f: EpId) -> bool
    ensures { IsTrue result ↔ IsSameEndpoint s.now e u.now f }
{
    s.id() == u.id() && e == f
}

/// Whether two attached endpoints are linked, if they are two on one link.
fn is_seen(a: &Spot<'_>, b: &Spot<'_>) -> bool
    ensures { MatchBool result (IsSeenPair (plain_spot a.entry.now) (plain_spot b.entry.now)) (IsUnseenPair (plain_spot a.entry.now) (plain_spot b.entry.now)) }
{
    let (s, u) = (&a.member.router, &b.member.router);
    a.link != b.link
        || is_same(s, a.endpoint, u, b.endpoint)
        || are_linked(s, a.endpoint, u, b.endpoint)
}

/// The first of these on the link of this one that is not linked with it.
fn first_unseen_by(a: &Spot<'_>, spots: &[Spot<'_>]) -> Option<Unsettled>
    ensures { IsFirstFound (FindsUnseen (plain_spot a.entry.now)) (plain_spots spots.now) result }
{
    for b in spots {
        if !is_seen(a, b) {
            return Some(Unsettled::NotLinked {
                router: a.member.name,
                endpoint: a.endpoint,
                other: b.member.name,
                other_endpoint: b.endpoint,
            });
        }
    }
    None
}

/// The first two of these that are on one link and not linked.
fn first_unseen(spots: &[Spot<'_>]) -> Option<Unsettled>
    ensures { IsFirstFound (λ a. IsFirstFound (FindsUnseen a) (plain_spots spots.now)) (plain_spots spots.now) result }
{
    for a in spots {
        if let Some(found) = first_unseen_by(a, spots) {
            return Some(found);
        }
    }
    None
}

/// Whether a peer of a router, if it is another endpoint of the other router and linked, is on one link with it.
fn is_true_of(s: &Member, peer: &PeerLink, u: &Member) -> bool
    ensures { MatchBool result (IsTrueOf s.now peer.now u.now) (IsUntrueOf s.now peer.now u.now) }
{
    let (e, f) = (peer.endpoint, peer.peer_endpoint);
    peer.peer != u.router.id()
        || is_same(&s.router, e, &u.router, f)
        || !are_linked(&s.router, e, &u.router, f)
        || are_on_one_link(s, e, u, f)
}

/// The first router of a set that is linked by a peer of a router, and not on one link with it.
fn first_untrue_of(s: &Member, peer: &PeerLink, set: &[&Member]) -> Option<Unsettled>
    ensures { IsFirstFound (FindsUntrue s.now peer.now) (members_of set.now) result }
{
    for u in set {
        if !is_true_of(s, peer, u) {
            return Some(Unsettled::NotOnOneLink {
                router: s.name,
                endpoint: peer.endpoint,
                other: u.name,
                other_endpoint: peer.peer_endpoint,
            });
        }
    }
    None
}

/// The first peer of a router for which there is such a router.
fn first_untrue_peer(s: &Member, set: &[&Member]) -> Option<Unsettled>
    ensures { FindsOfPeers (members_of set.now) s.now result }
{
    for peer in s.router.body().peers() {
        if let Some(found) = first_untrue_of(s, peer, set) {
            return Some(found);
        }
    }
    None
}

/// The first router of a set with such a peer.
fn first_untrue(set: &[&Member]) -> Option<Unsettled>
    ensures { IsFirstFound (FindsOfPeers (members_of set.now)) (members_of set.now) result }
{
    for s in set {
        if let Some(found) = first_untrue_peer(s, set) {
            return Some(found);
        }
    }
    None
}

/// The first router that is not in a set and on a link with one that is, or else the first two attached endpoints of
/// the set that are on one link and not linked, or else the first two that are linked and not on one link.
pub(crate) fn first_on_links(
    world: &World,
    reach: &[NodeId],
    set: &[&Member],
    spots: &[Spot<'_>],
) -> Option<Unsettled>
    ensures { FindsOnLinks world.now.parts.members reach.now (members_of set.now) (plain_spots spots.now) result }
{
    if let Some(found) = first_stranger(world, reach, spots) {
        return Some(found);
    }
    if let Some(found) = first_unseen(spots) {
        return Some(found);
    }
    first_untrue(set)
}
