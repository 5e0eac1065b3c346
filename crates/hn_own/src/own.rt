//! A router's own items and the node data that they encode to.

ghost use Rattle.std.specs.Prelude.{◌≡◌, ◌+◌, ◌++◌, ◌≤◌, ◌<◌, map, length, All, IfOk, OnOk, IsTrue, ◌↔◌};
ghost use Rattle.std.specs.List.{flat_map};
ghost use Rattle.hn_tlv.specs.Grammar.{spelling};
ghost use Rattle.hn_typed.specs.Written.{tlv_of, IsWritable, IsEncoding};
ghost use Rattle.hn_own.specs.Own.{links_at, links_of, version_item, peer_item, delegated_item, external_items, assigned_item, address_item, items_of, encodings, pieces_of, AreFew, IsOwnData};
ghost use Rattle.hn_own.specs.HeldPairs.{published_in};

use crate::addresses::Addresses;
use crate::held_pairs::HeldPairs;
use crate::lifetimes::seconds_left;
use crate::own_prefixes::{OwnPrefix, OwnPrefixes};
use crate::ports::Ports;
use hn_base::{Bytes, Caps, EpId, Moment, NoMemory, Sequence};
use hn_data::{AssignedPrefix, NodeData, PeerLink, encode};
use hn_dncp::Port;
use hn_hash::h;
use hn_typed::Item;
use std::alloc::Global;
use std::marker::Model;

/// The items that a router publishes of itself: its capabilities, a Peer for each peer of each endpoint, its delegated
/// prefixes, the assignments that it publishes, and its addresses (RFC 7787, section 7.3.1; RFC 7788, sections 10.1 to
/// 10.4).
#[derive(Drop)]
pub struct OwnItems {
    pub caps: Caps,
    pub links: Sequence<PeerLink>,
    pub delegated: Sequence<OwnPrefix>,
    pub assigned: Sequence<AssignedPrefix>,
    pub addresses: Sequence<(EpId, u128)>,
}

/// Own items, when they were published, the node data that they encode to, and its hash.
#[derive(Drop)]
pub struct OwnData {
    items: OwnItems,
    born: Moment,
    body: NodeData,
    hash: [u8; 8],
}

impl Model for OwnData {
    ghost use Rattle.hn_own.specs.Own.{PlainData, IsOwnData};

    ghost Value = { PlainData };

    ghost view = { λ d. record { items = d.items; born = d.born; body = d.body; hash = d.hash } };

    ghost invariant = { λ d. IsOwnData (record { items = d.items; born = d.born; body = d.body; hash = d.hash }) };
}

/// Adds what a router says of the peers of an endpoint: at most 64.
fn add_links(links: &mut Sequence<PeerLink>, port: &Port) -> Result<(), NoMemory>
    ensures links { OnOk result (links.new ≡ links.old ++ links_at port.now) }
    ensures few { OnOk result (length links.new ≤ length links.old + 64) }
{
    for peer in port.peers.as_slice() {
        links.push(PeerLink {
            endpoint: port.id,
            peer: peer.node,
            peer_endpoint: peer.endpoint,
        })?;
    }
    Ok(())
}

/// What a router says of the peers of all its endpoints: at most 1,024.
fn links_of(alloc: Global, ports: &Ports) -> Result<Sequence<PeerLink>, NoMemory>
    ensures links { IfOk result (λ links. links ≡ links_of ports.now) }
    ensures few { IfOk result (λ links. length links ≤ 1024) }
{
    let mut links = Sequence::new(alloc);
    for port in ports.as_slice() {
        add_links(&mut links, port)?;
    }
    Ok(links)
}

/// The HNCP-Version of a router with these capabilities.
fn encode_version(alloc: Global, caps: Caps) -> Result<Bytes, NoMemory>
    ensures { IfOk result (λ bytes. IsEncoding bytes (version_item caps)) }
{
    encode(
        alloc,
        &Item::Version {
            caps,
            agent: "hncp",
        },
    )
}

/// The Peer of a link.
fn encode_link(alloc: Global, link: &PeerLink) -> Result<Bytes, NoMemory>
    ensures { IfOk result (λ bytes. IsEncoding bytes (peer_item link.now)) }
{
    encode(
        alloc,
        &Item::Peer {
            peer: link.peer,
            peer_endpoint: link.peer_endpoint,
            endpoint: link.endpoint,
            subs: &[],
        },
    )
}

/// The Delegated-Prefix of an own delegated prefix, at a moment.
fn encode_delegated(alloc: Global, now: Moment, own: &OwnPrefix) -> Result<Bytes, NoMemory>
    ensures { IfOk result (λ bytes. IsEncoding bytes (delegated_item now own.now)) }
{
    encode(
        alloc,
        &Item::Delegated {
            valid: seconds_left(now, own.valid_until),
            preferred: seconds_left(now, own.preferred_until),
            prefix: own.prefix,
            subs: &[],
        },
    )
}

/// The Delegated-Prefixes of own delegated prefixes, at a moment, one after the other.
fn encode_all_delegated(alloc: Global, now: Moment, list: &[OwnPrefix]) -> Result<Vec<u8>, NoMemory>
    ensures bytes { IfOk result (λ bytes. bytes.items ≡ flat_map (λ own. spelling (tlv_of (delegated_item now own))) list.now) }
    ensures writable { IfOk result (λ _. All IsWritable (map (delegated_item now) list.now)) }
{
    let mut bytes = Vec::new(alloc);
    for own in list {
        bytes.extend_from_slice(encode_delegated(alloc, now, own)?.as_slice())?;
    }
    Ok(bytes)
}

/// The Assigned-Prefix of an assignment that is published.
fn encode_assigned(alloc: Global, a: &AssignedPrefix) -> Result<Bytes, NoMemory>
    requires { a.now.priority ≡ 2 }
    ensures { IfOk result (λ bytes. IsEncoding bytes (assigned_item a.now)) }
{
    encode(
        alloc,
        &Item::Assigned {
            endpoint: a.endpoint,
            priority: a.priority,
            prefix: a.prefix,
            subs: &[],
        },
    )
}

/// The Node-Address of an own address.
fn encode_address(alloc: Global, a: &(EpId, u128)) -> Result<Bytes, NoMemory>
    ensures { IfOk result (λ bytes. IsEncoding bytes (address_item a.now)) }
{
    encode(
        alloc,
        &Item::Address {
            endpoint: a.0,
            address: a.1,
            subs: &[],
        },
    )
}

/// Adds the encodings of links.
fn add_link_pieces(
    alloc: Global,
    pieces: &mut Vec<Bytes>,
    links: &[PeerLink],
) -> Result<(), NoMemory>
    ensures pieces { OnOk result (pieces.new.items ≡ pieces.old.items ++ encodings (map peer_item links.now)) }
    ensures writable { OnOk result (All IsWritable (map peer_item links.now)) }
{
    for link in links {
        pieces.push(encode_link(alloc, link)?)?;
    }
    Ok(())
}

/// Adds the encoding of the External-Connection at a moment, if there are delegated prefixes.
fn add_external_piece(
    alloc: Global,
    pieces: &mut Vec<Bytes>,
    now: Moment,
    list: &[OwnPrefix],
) -> Result<(), NoMemory>
    requires { length list.now ≤ 8 }
    ensures pieces { OnOk result (pieces.new.items ≡ pieces.old.items ++ encodings (external_items now list.now)) }
    ensures writable { OnOk result (All IsWritable (external_items now list.now)) }
{
    if list.is_empty() {
        return Ok(());
    }
    let subs = encode_all_delegated(alloc, now, list)?;
    pieces.push(encode(
        alloc,
        &Item::External {
            subs: subs.as_slice(),
        },
    )?)?;
    Ok(())
}

/// Adds the encodings of assignments that are published.
fn add_assigned_pieces(
    alloc: Global,
    pieces: &mut Vec<Bytes>,
    assigned: &[AssignedPrefix],
) -> Result<(), NoMemory>
    requires { All (λ a. a.priority ≡ 2) assigned.now }
    ensures pieces { OnOk result (pieces.new.items ≡ pieces.old.items ++ encodings (map assigned_item assigned.now)) }
    ensures writable { OnOk result (All IsWritable (map assigned_item assigned.now)) }
{
    for a in assigned {
        pieces.push(encode_assigned(alloc, a)?)?;
    }
    Ok(())
}

/// Adds the encodings of own addresses.
fn add_address_pieces(
    alloc: Global,
    pieces: &mut Vec<Bytes>,
    addresses: &[(EpId, u128)],
) -> Result<(), NoMemory>
    ensures pieces { OnOk result (pieces.new.items ≡ pieces.old.items ++ encodings (map address_item addresses.now)) }
    ensures writable { OnOk result (All IsWritable (map address_item addresses.now)) }
{
    for a in addresses {
        pieces.push(encode_address(alloc, a)?)?;
    }
    Ok(())
}

impl OwnItems {
    /// The own items of a router as it is.
    ///
    /// # Errors
    ///
    /// Out of memory.
    pub fn of<I: Drop>(
        alloc: Global,
        caps: Caps,
        ports: &Ports,
        delegated: &OwnPrefixes,
        held: &HeldPairs<I>,
        addresses: &Addresses,
    ) -> Result<OwnItems, NoMemory>
        ensures items { IfOk result (λ items. items ≡ record {
          caps = caps;
          links = links_of ports.now;
          delegated = delegated.now;
          assigned = published_in held.now.assigned;
          addresses = addresses.now;
        }) }
        ensures few { IfOk result AreFew }
    {
        Ok(OwnItems {
            caps,
            links: links_of(alloc, ports)?,
            delegated: delegated.copy(alloc)?,
            assigned: held.published(alloc)?,
            addresses: addresses.copy(alloc)?,
        })
    }

    /// Whether these are the same items, lifetimes compared as the moments at which they end. Never allocates.
    pub fn is(&self, other: &OwnItems) -> bool
        ensures { IsTrue result ↔ (self.now ≡ other.now) }
    {
        self.caps == other.caps
            && self.links.as_slice() == other.links.as_slice()
            && self.delegated.as_slice() == other.delegated.as_slice()
            && self.assigned.as_slice() == other.assigned.as_slice()
            && self.addresses.as_slice() == other.addresses.as_slice()
    }

    /// The encodings of the items at a moment.
    fn pieces(&self, alloc: Global, now: Moment) -> Result<Vec<Bytes>, NoMemory>
        requires { AreFew self.now }
        ensures pieces { IfOk result (λ pieces. pieces.items ≡ pieces_of now self.now) }
        ensures writable { IfOk result (λ _. All IsWritable (items_of now self.now)) }
    {
        let mut pieces = Vec::with_capacity(alloc, self.links.len() + 2)?;
        pieces.push(encode_version(alloc, self.caps)?)?;
        add_link_pieces(alloc, &mut pieces, self.links.as_slice())?;
        add_external_piece(alloc, &mut pieces, now, self.delegated.as_slice())?;
        add_assigned_pieces(alloc, &mut pieces, self.assigned.as_slice())?;
        add_address_pieces(alloc, &mut pieces, self.addresses.as_slice())?;
        Ok(pieces)
    }
}

impl OwnData {
    /// The node data of own items that are published now.
    ///
    /// # Errors
    ///
    /// Out of memory.
    pub fn new(alloc: Global, items: OwnItems, now: Moment) -> Result<OwnData, NoMemory>
        requires { AreFew items }
        ensures items { IfOk result (λ own. own.items ≡ items) }
        ensures born { IfOk result (λ own. own.born ≡ now) }
    {
        let pieces = items.pieces(alloc, now)?;
        let body = NodeData::from_items(alloc, pieces.as_slice())?;
        let hash = h(body.bytes());
        Ok(OwnData {
            items,
            born: now,
            body,
            hash,
        })
    }

    /// The items. Never allocates.
    pub fn items(&self) -> &OwnItems
        ensures { result.now ≡ self.now.items }
    {
        &self.items
    }

    /// When they were published, in milliseconds. Never allocates.
    pub fn born(&self) -> Moment
        ensures { result ≡ self.now.born }
    {
        self.born
    }

    /// The node data, which have fewer than 36,864 bytes. Never allocates.
    pub fn body(&self) -> &NodeData
        ensures body { result.now ≡ self.now.body }
        ensures short { length result.now < 36864 }
    {
        &self.body
    }

    /// The hash of the node data. Never allocates.
    pub fn hash(&self) -> [u8; 8]
        ensures { result ≡ self.now.hash }
    {
        self.hash
    }
}
