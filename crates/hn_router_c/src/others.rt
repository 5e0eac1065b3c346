//! What the router knows of other nodes: its peers, and the data of each node. Beside it what it publishes itself.

ghost use Rattle.std.specs.Prelude.{◌≡◌, ◌≢◌, ◌↔◌, ◌<◌, ◌≤◌, ◌⊎◌, IfSome, IfNone, length, option_copied};
ghost use Rattle.hn_own.specs.Ports.{port_at};
ghost use Rattle.hn_router_c.specs.Calls.{peers_on, IsPeerOut, IsKnownAt, IsNotListed, IsWritten, ExceedsRoom};

use crate::happening::{DONE, OUT_OF_RANGE};
use crate::kinds::{Known, Peer, known_out, peer_out};
use crate::reports::write;
use hn_base::EpId;
use hn_dncp::{Neighbour, Port};
use hn_handle::Handle;
use hn_router::Router;
use hn_store::HeldNode;
use std::alloc::Global;

/// The endpoint of a number, if it is attached.
fn port_at(ports: &[Port], at: EpId) -> Option<&Port>
    ensures { option_copied result ≡ port_at at ports.now }
{
    ports.iter().find(|port| port.id == at)
}

/// The peers on the link of an endpoint, in the order in which they came. There are none where it is not attached.
fn peers_on(router: &Router, at: EpId) -> &[Neighbour]
    ensures { result.now ≡ peers_on at router.now }
{
    match port_at(router.ports(), at) {
        Some(port) => port.peers.as_slice(),
        None => &[],
    }
}

/// The peer at a place.
fn peer_at(peers: &[Neighbour], place: usize, out: &mut Peer) -> u8
    ensures peer { result ≡ 0 → IsPeerOut peers.now place out.new }
    ensures there { result ≡ 0 ↔ place < length peers.now }
    ensures as_before { result ≢ 0 → out.new ≡ out.old }
    ensures status { (result ≡ 0) ⊎ (result ≡ 2) }
{
    let Some(peer) = peers.get(place) else {
        return OUT_OF_RANGE;
    };
    *out = peer_out(peer);
    DONE
}

/// What is known of the node at a place, and its data.
fn known_at(
    nodes: &[HeldNode],
    place: usize,
    known: &mut Known,
    count: &mut usize,
    room: &mut [u8],
) -> u8
    ensures known { result ≡ 0 → IsKnownAt nodes.now place known.new count.new room.old room.new }
    ensures unknown { result ≢ 0 → IsNotListed nodes.now place known.new count.new room.old }
    ensures absent { length nodes.now ≤ place → (known.new ≡ known.old) × (count.new ≡ count.old) }
    ensures as_before { result ≢ 0 → room.new ≡ room.old }
    ensures status { (result ≡ 0) ⊎ (result ≡ 2) }
{
    let Some(node) = nodes.get(place) else {
        return OUT_OF_RANGE;
    };
    *known = known_out(node);
    if write(node.stored.body.bytes(), count, room) {
        DONE
    } else {
        OUT_OF_RANGE
    }
}

/// How many peers there are on the link of an endpoint.
#[unsafe(no_mangle)]
pub extern "C" fn hn_router_peers(alloc: Global, router: &mut Handle, endpoint: u32) -> usize
    ensures kept { router.new.held ≡ router.old.held }
    ensures value { IfSome router.old.held (λ kept. result ≡ length (peers_on (record { 0 = endpoint }) kept.router)) }
    ensures none { IfNone router.old.held (result ≡ 0) }
{
    let Some(keeper) = router.take(alloc) else {
        return 0;
    };
    let value = peers_on(keeper.router(), EpId(endpoint)).len();
    *router = Handle::of(keeper);
    value
}

/// The peer at a place of those on the link of an endpoint.
#[unsafe(no_mangle)]
pub extern "C" fn hn_router_peer(
    alloc: Global,
    router: &mut Handle,
    endpoint: u32,
    place: usize,
    peer: &mut Peer,
) -> u8
    ensures kept { router.new.held ≡ router.old.held }
    ensures peer { result ≡ 0 → IfSome router.old.held (λ kept. IsPeerOut (peers_on (record { 0 = endpoint }) kept.router) place peer.new) }
    ensures there { IfSome router.old.held (λ kept. result ≡ 0 ↔ place < length (peers_on (record { 0 = endpoint }) kept.router)) }
    ensures none { IfNone router.old.held (result ≡ 2) }
    ensures as_before { result ≢ 0 → peer.new ≡ peer.old }
    ensures status { (result ≡ 0) ⊎ (result ≡ 2) }
{
    let Some(keeper) = router.take(alloc) else {
        return OUT_OF_RANGE;
    };
    let status = peer_at(peers_on(keeper.router(), EpId(endpoint)), place, peer);
    *router = Handle::of(keeper);
    status
}

/// How many other nodes are known, reachable or not.
#[unsafe(no_mangle)]
pub extern "C" fn hn_router_known(alloc: Global, router: &mut Handle) -> usize
    ensures kept { router.new.held ≡ router.old.held }
    ensures value { IfSome router.old.held (λ kept. result ≡ length kept.router.table.entries) }
    ensures none { IfNone router.old.held (result ≡ 0) }
{
    let Some(keeper) = router.take(alloc) else {
        return 0;
    };
    let value = keeper.router().table().len();
    *router = Handle::of(keeper);
    value
}

/// What is known of the other node at a place, how many bytes its data have, and these, where there is room.
#[unsafe(no_mangle)]
pub extern "C" fn hn_router_data(
    alloc: Global,
    router: &mut Handle,
    place: usize,
    known: &mut Known,
    count: &mut usize,
    room: &mut [u8],
) -> u8
    ensures kept { router.new.held ≡ router.old.held }
    ensures known { result ≡ 0 → IfSome router.old.held (λ kept. IsKnownAt kept.router.table.entries place known.new count.new room.old room.new) }
    ensures unknown { result ≢ 0 → IfSome router.old.held (λ kept. IsNotListed kept.router.table.entries place known.new count.new room.old) }
    ensures absent { IfSome router.old.held (λ kept. length kept.router.table.entries ≤ place → (known.new ≡ known.old) × (count.new ≡ count.old)) }
    ensures none { IfNone router.old.held ((result ≡ 2) × (known.new ≡ known.old) × (count.new ≡ count.old)) }
    ensures as_before { result ≢ 0 → room.new ≡ room.old }
    ensures status { (result ≡ 0) ⊎ (result ≡ 2) }
{
    let Some(keeper) = router.take(alloc) else {
        return OUT_OF_RANGE;
    };
    let status = known_at(keeper.router().table().entries(), place, known, count, room);
    *router = Handle::of(keeper);
    status
}

/// The node data that the router published last.
fn published(router: &Router, count: &mut usize, room: &mut [u8]) -> u8
    ensures published { result ≡ 0 → IsWritten router.now.own.body count.new room.old room.new }
    ensures no_room { result ≡ 2 → ExceedsRoom router.now.own.body count.new room.old }
    ensures as_before { result ≢ 0 → room.new ≡ room.old }
    ensures status { (result ≡ 0) ⊎ (result ≡ 2) }
{
    if write(router.body().bytes(), count, room) {
        DONE
    } else {
        OUT_OF_RANGE
    }
}

/// How many bytes the node data have that the router published last, and these, where there is room.
#[unsafe(no_mangle)]
pub extern "C" fn hn_router_published(
    alloc: Global,
    router: &mut Handle,
    count: &mut usize,
    room: &mut [u8],
) -> u8
    ensures kept { router.new.held ≡ router.old.held }
    ensures published { result ≡ 0 → IfSome router.old.held (λ kept. IsWritten kept.router.own.body count.new room.old room.new) }
    ensures no_room { result ≡ 2 → IfSome router.old.held (λ kept. ExceedsRoom kept.router.own.body count.new room.old) }
    ensures none { IfNone router.old.held ((result ≡ 2) × (count.new ≡ count.old)) }
    ensures as_before { result ≢ 0 → room.new ≡ room.old }
    ensures status { (result ≡ 0) ⊎ (result ≡ 2) }
{
    let Some(keeper) = router.take(alloc) else {
        return OUT_OF_RANGE;
    };
    let status = published(keeper.router(), count, room);
    *router = Handle::of(keeper);
    status
}
