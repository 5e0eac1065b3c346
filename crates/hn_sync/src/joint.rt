//! The endpoints by which two routers are peers of each other.

ghost use Rattle.std.specs.Prelude.{◌≡◌, is_some, option_copied};
ghost use Rattle.hn_own.specs.Ports.{port_at};
ghost use Rattle.hn_world.specs.Names.{is_on};
ghost use Rattle.hn_sync.specs.Exchange.{unless_exchange};
ghost use Rattle.hn_sync.specs.Joined.{has_peer_at, are_on_one_link, are_joined, first_endpoint, partner_of, joint_of};

use hn_base::{EpId, Name, NodeId};
use hn_dncp::Port;
use hn_router::Router;
use hn_world::{Member, World};

/// The code of a world: no endpoints of two routers are peers of each other on one link.
pub const NOT_JOINED: u8 = 18;

/// The endpoint of that number of a router, if it is attached.
fn port_at(router: &Router, e: EpId) -> Option<&Port>
    ensures { option_copied result ≡ port_at e router.now.ports }
{
    router.ports().iter().find(|port| port.id == e)
}

/// Whether an endpoint of a router has that endpoint of a node as a peer.
fn has_peer_at(router: &Router, e: EpId, node: NodeId, f: EpId) -> bool
    ensures { result ≡ has_peer_at router.now e node f }
{
    match port_at(router, e) {
        Some(port) => port.peers.has(node, f),
        None => false,
    }
}

/// Whether an endpoint of a router is attached to that link.
fn is_on(member: &Member, link: usize, endpoint: EpId) -> bool
    ensures { result ≡ is_on link member.now endpoint }
{
    match member.link_of(endpoint) {
        Some(other) => other == link,
        None => false,
    }
}

/// Whether endpoints of two routers are attached to one link.
fn are_on_one_link(a: &Member, e: EpId, b: &Member, f: EpId) -> bool
    ensures { result ≡ are_on_one_link a.now e b.now f }
{
    match a.link_of(e) {
        Some(link) => is_on(b, link, f),
        None => false,
    }
}

/// Whether two routers are peers of each other by these endpoints, which are attached to one link.
fn are_joined(a: &Member, e: EpId, b: &Member, f: EpId) -> bool
    ensures { result ≡ are_joined a.now e b.now f }
{
    are_on_one_link(a, e, b, f)
        && has_peer_at(&a.router, e, b.router.id(), f)
        && has_peer_at(&b.router, f, a.router.id(), e)
}

/// The least endpoint of b with which this one of a is joined.
fn partner_of(a: &Member, e: EpId, b: &Member) -> Option<EpId>
    ensures { result ≡ partner_of a.now e b.now }
{
    let mut ports = b.router.ports().iter();
    let port = ports.find(|port| are_joined(a, e, b, port.id))?;
    Some(port.id)
}

/// The least endpoint of a that is joined with one of b.
fn first_joined(a: &Member, b: &Member) -> Option<EpId>
    ensures { result ≡ first_endpoint (λ e. is_some (partner_of a.now e b.now)) a.now }
{
    let mut ports = a.router.ports().iter();
    let port = ports.find(|port| partner_of(a, port.id, b).is_some())?;
    Some(port.id)
}

/// The least endpoints by which a and b are joined, those of b for the least one of a.
pub(crate) fn joint_of(a: &Member, b: &Member) -> Option<(EpId, EpId)>
    ensures { result ≡ joint_of a.now b.now }
{
    let e = first_joined(a, b)?;
    let f = partner_of(a, e, b)?;
    Some((e, f))
}

/// The code with which an exchange, in which b asks a, is refused before anything happens; `None` if and only if it begins.
/// Never allocates.
pub fn unless_exchange(world: &World, a: &Name, b: &Name) -> Option<u8>
    ensures { result ≡ unless_exchange a.now b.now world.now.parts }
{
    if let Some(code) = world.unless_both_run(a, b) {
        return Some(code);
    }
    let (Some(one), Some(two)) = (world.member(a), world.member(b)) else {
        unreachable!()
    };
    match joint_of(one, two) {
        Some(_) => None,
        None => Some(NOT_JOINED),
    }
}
