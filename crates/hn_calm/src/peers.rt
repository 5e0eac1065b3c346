//! Whether each peer is linked, and was heard.

ghost use Rattle.hn_audit.specs.First.{IsFirstFound};
ghost use Rattle.std.specs.Prelude.{◌≡◌};
ghost use Rattle.hn_calm.specs.Home.{AreReached};
ghost use Rattle.hn_calm.specs.Peers.{peer_at, FindsPeer, FindsAtPort, FindsAtRouter, FindsMissing};

use crate::sent::sent;
use crate::uncalm::{PeerAt, Uncalm};
use hn_base::{EpId, Moment};
use hn_dncp::{Neighbour, Port};
use hn_world::{Member, World};

/// A peer of a calm home was heard less than so many milliseconds ago (RFC 7788, section 3).
const HEARD: Moment = 20_000;

/// A peer of an endpoint of a router.
fn peer_at(y: &Member, e: EpId, peer: &Neighbour) -> PeerAt
    ensures { result ≡ peer_at y.now.name e peer.now }
{
    PeerAt {
        router: y.name,
        endpoint: e,
        node: peer.node,
        peer: peer.endpoint,
    }
}

/// What is missing of a peer of an endpoint of y.
fn missing_of(
    world: &World,
    r: &Member,
    y: &Member,
    port: &Port,
    peer: &Neighbour,
) -> Option<Uncalm>
    requires { AreReached world.now.parts r.now }
    ensures { FindsPeer world.now.parts r.now y.now port.now peer.now result }
{
    let at = peer_at(y, port.id, peer);
    let contact = peer.contact;
    if sent(world, y, port.id, peer, None).is_none() {
        return Some(Uncalm::Unlinked { at });
    }
    if contact.saturating_add(HEARD) <= world.moment() {
        return Some(Uncalm::Unheard { at, contact });
    }
    match sent(world, y, port.id, peer, Some(contact)) {
        Some(sent) => Some(Uncalm::Missed { at, contact, sent }),
        None => None,
    }
}

/// What is missing of the first peer of an endpoint of y of which something is.
fn missing_at(world: &World, r: &Member, y: &Member, port: &Port) -> Option<Uncalm>
    requires { AreReached world.now.parts r.now }
    ensures { FindsAtPort world.now.parts r.now y.now port.now result }
{
    for peer in port.peers.as_slice() {
        if let Some(found) = missing_of(world, r, y, port, peer) {
            return Some(found);
        }
    }
    None
}

/// The same, of the first endpoint of y.
fn missing_at_ports(world: &World, r: &Member, y: &Member) -> Option<Uncalm>
    requires { AreReached world.now.parts r.now }
    ensures { IsFirstFound (FindsAtPort world.now.parts r.now y.now) y.now.router.ports result }
{
    for port in y.router.ports() {
        if let Some(found) = missing_at(world, r, y, port) {
            return Some(found);
        }
    }
    None
}

/// The same, where y runs.
fn missing_while_running(world: &World, r: &Member, y: &Member) -> Option<Uncalm>
    requires { AreReached world.now.parts r.now }
    ensures { FindsAtRouter world.now.parts r.now y.now result }
{
    if !y.running {
        return None;
    }
    missing_at_ports(world, r, y)
}

/// The same, of the first router.
pub(crate) fn missing_of_peers(world: &World, r: &Member) -> Option<Uncalm>
    requires { AreReached world.now.parts r.now }
    ensures { FindsMissing world.now.parts r.now result }
{
    for y in world.members() {
        if let Some(found) = missing_while_running(world, r, y) {
            return Some(found);
        }
    }
    None
}
