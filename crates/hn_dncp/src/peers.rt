ghost use Rattle.std.specs.Prelude.{◌≡◌, ◌<◌, ◌≤◌, ◌↔◌, [], ◌∷◌, ◌++◌, length, map, if◌then◌else◌, find, position, Some, false, slice_index_or, IsTrue, IfOk, OnOk, OnErr, option_copied};
ghost use Rattle.std.specs.List.{remove};
ghost use Rattle.hn_dncp.specs.Peers.{is_peer, has_peer, ArePeers};
ghost use Rattle.hn_dncp.specs.Greet.{peers_heard, greeting};
ghost use Rattle.hn_dncp.specs.Hash.{contacted};

use crate::greet::Greet;
use hn_base::{Addr, EpId, Moment, NoMemory, NodeId};
use std::alloc::{AllocError, Global};
use std::marker::Model;

/// The most peers of an endpoint.
pub const MOST_PEERS: usize = 64;

/// A peer of an endpoint: another node's endpoint on the same link (RFC 7787, section 2).
#[derive(Clone, Copy)]
pub struct Neighbour {
    /// The node.
    pub node: NodeId,
    /// The node's endpoint.
    pub endpoint: EpId,
    /// When the peer was last heard, in milliseconds.
    pub contact: Moment,
    /// Where it sends from.
    pub addr: Addr,
}

impl Neighbour {
    /// Whether the peer is that endpoint of that node. Never allocates.
    pub fn is(&self, node: NodeId, endpoint: EpId) -> bool
        ensures { result ≡ is_peer node endpoint self.now }
    {
        self.node == node && self.endpoint == endpoint
    }
}

/// The peers of an endpoint: at most 64, each endpoint of a node once. Contracts see the list.
#[derive(Drop)]
pub struct Peers {
    items: Vec<Neighbour>,
}

impl Model for Peers {
    ghost use Rattle.std.specs.Prelude.{List};
    ghost use Rattle.hn_dncp.specs.declared.peers.Neighbour.{Neighbour};
    ghost use Rattle.hn_dncp.specs.Peers.{ArePeers};

    ghost Value = { List Neighbour };

    ghost view = { λ p. p.items.items };

    ghost invariant = { λ p. ArePeers p.items.items };
}

impl Clone for Peers {
    ghost is_clone = { λ peers copy. copy ≡ peers };

    /// # Errors
    ///
    /// Out of memory, as `AllocError`.
    fn clone(&self) -> Result<Peers, AllocError> {
        Ok(Peers {
            items: self.items.clone()?,
        })
    }
}

/// The place of a peer.
fn place_of(peers: &[Neighbour], node: NodeId, endpoint: EpId) -> Option<usize>
    ensures { result ≡ position (is_peer node endpoint) peers.now }
{
    peers.iter().position(|peer| peer.is(node, endpoint))
}

impl Peers {
    /// No peers. Never allocates.
    pub fn new(alloc: Global) -> Peers
        ensures { result ≡ [] }
    {
        Peers {
            items: Vec::new(alloc),
        }
    }

    /// The peers, in the order in which they came. Never allocates.
    pub fn as_slice(&self) -> &[Neighbour]
        ensures peers { result.now ≡ self.now }
        ensures kept { ArePeers self.now }
    {
        self.items.as_slice()
    }

    /// How many there are, at most 64. Never allocates.
    pub fn len(&self) -> usize
        ensures len { result ≡ length self.now }
        ensures at_most { result ≤ 64 }
    {
        self.items.len()
    }

    /// Whether there are none. Never allocates.
    pub fn is_empty(&self) -> bool
        ensures { IsTrue result ↔ (self.now ≡ []) }
    {
        self.items.is_empty()
    }

    /// Whether that endpoint of that node is a peer. Never allocates.
    pub fn has(&self, node: NodeId, endpoint: EpId) -> bool
        ensures { result ≡ has_peer node endpoint self.now }
    {
        self.items.iter().any(|peer| peer.is(node, endpoint))
    }

    /// The peer that is that endpoint of that node; `None` if and only if there is none. Never allocates.
    pub fn find(&self, node: NodeId, endpoint: EpId) -> Option<&Neighbour>
        ensures { option_copied result ≡ find (is_peer node endpoint) self.now }
    {
        self.items.iter().find(|peer| peer.is(node, endpoint))
    }

    /// Takes the peer at a place out; those after it move up. Never allocates.
    pub fn remove_at(&mut self, place: usize) -> Neighbour
        requires { place < length self.old }
        ensures peer { result ≡ slice_index_or self.old place result }
        ensures peers { self.new ≡ remove self.old place }
    {
        self.items.remove(place)
    }

    /// Renews a peer's contact, if it is one. Never allocates.
    pub(crate) fn hear(&mut self, node: NodeId, endpoint: EpId, now: Moment)
        ensures { self.new ≡ contacted (Some (node, endpoint)) now self.old }
    {
        if let Some(place) = place_of(&self.items, node, endpoint) {
            self.items[place].contact = now;
        }
    }

    // A peer takes the place of the one with its node and endpoint, if there is one.
    fn replace(&mut self, peer: Neighbour)
        ensures { self.new ≡ map (λ other. if is_peer peer.node peer.endpoint other then peer else other) self.old }
    {
        if let Some(place) = place_of(&self.items, peer.node, peer.endpoint) {
            self.items[place] = peer;
        }
    }

    // A new peer comes last.
    fn add(&mut self, peer: Neighbour) -> Result<(), NoMemory>
        requires unknown { has_peer peer.node peer.endpoint self.old ≡ false }
        requires room { length self.old < 64 }
        ensures ok { OnOk result (self.new ≡ self.old ++ peer ∷ []) }
        ensures err { OnErr result (self.new ≡ self.old) }
    {
        Ok(self.items.push(peer)?)
    }

    /// A peer was heard: a known one is renewed, an unknown one is added where there is room.
    ///
    /// # Errors
    ///
    /// Out of memory; the peers are as before then.
    pub(crate) fn meet(&mut self, peer: Neighbour) -> Result<Greet, NoMemory>
        ensures peers { OnOk result (self.new ≡ peers_heard peer self.old) }
        ensures answer { IfOk result (λ greet. greet ≡ greeting peer.node peer.endpoint false self.old) }
        ensures err { OnErr result (self.new ≡ self.old) }
    {
        if self.has(peer.node, peer.endpoint) {
            self.replace(peer);
            return Ok(Greet::Known);
        }
        if self.len() == MOST_PEERS {
            return Ok(Greet::Full);
        }
        self.add(peer)?;
        Ok(Greet::Added)
    }
}
