//! What node data keep beside their bytes, read from the TLVs one by one.

ghost use Rattle.std.specs.Prelude.{◌≡◌, ◌↔◌, ℕ, List, [], ◌∷◌, ◌++◌, option_to_list, IsTrue, IfOk, OnOk};
ghost use Rattle.std.specs.Option.{option_map};
ghost use Rattle.hn_tlv.specs.Grammar.{PlainTlv, HasTlvs};
ghost use Rattle.hn_tlv.specs.View.{plain};
ghost use Rattle.hn_typed.specs.Item.{PlainItem};
ghost use Rattle.hn_typed.specs.Table.{IsItem};
ghost use Rattle.hn_typed.specs.View.{plain_item, plain_caps};
ghost use Rattle.hn_data.specs.Peers.{peer_of};
ghost use Rattle.hn_data.specs.Said.{caps_of, interval_of, assigned_prefix_of, node_address_of};
ghost use Rattle.hn_data.specs.Delegations.{IsConnected};
ghost use Rattle.hn_data.specs.Kept.{AreKept, AreKeptOf};

use crate::delegations::add_delegations;
use crate::said::{AssignedPrefix, Delegation, Interval, PeerLink};
use hn_base::{Caps, EpId, NoMemory};
use hn_tlv::Tlv;
use hn_typed::{Item, read};
use std::alloc::Global;

/// What others ask of node data.
#[derive(Drop)]
pub(crate) struct Kept {
    pub(crate) version: Option<Caps>,
    pub(crate) external: bool,
    pub(crate) peers: Vec<PeerLink>,
    pub(crate) intervals: Vec<Interval>,
    pub(crate) delegations: Vec<Delegation>,
    pub(crate) assigned: Vec<AssignedPrefix>,
    pub(crate) addresses: Vec<(EpId, u128)>,
}

// The priorities of an HNCP-Version.
fn caps_of(item: &Item<'_>) -> Option<Caps>
    ensures { option_map plain_caps result ≡ caps_of (plain_item item.now) }
{
    match item {
        Item::Version { caps, .. } => Some(*caps),
        _ => None,
    }
}

fn is_external(item: &Item<'_>) -> bool
    ensures { IsTrue result ↔ IsConnected (plain_item item.now ∷ []) }
{
    matches!(item, Item::External { .. })
}

// What a Peer says.
fn peer_of(item: &Item<'_>) -> Option<PeerLink>
    ensures { result ≡ peer_of (plain_item item.now) }
{
    match item {
        Item::Peer {
            peer,
            peer_endpoint,
            endpoint,
            ..
        } => Some(PeerLink {
            endpoint: *endpoint,
            peer: *peer,
            peer_endpoint: *peer_endpoint,
        }),
        _ => None,
    }
}

// What a Keep-Alive Interval says.
fn interval_of(item: &Item<'_>) -> Option<Interval>
    ensures { result ≡ interval_of (plain_item item.now) }
{
    match item {
        Item::KeepAlive {
            endpoint,
            interval,
            ..
        } => Some(Interval {
            endpoint: *endpoint,
            interval: *interval,
        }),
        _ => None,
    }
}

// What an Assigned-Prefix says.
fn assigned_prefix_of(item: &Item<'_>) -> Option<AssignedPrefix>
    ensures { result ≡ assigned_prefix_of (plain_item item.now) }
{
    match item {
        Item::Assigned {
            endpoint,
            priority,
            prefix,
            ..
        } => Some(AssignedPrefix {
            endpoint: *endpoint,
            priority: *priority,
            prefix: *prefix,
        }),
        _ => None,
    }
}

// What a Node-Address says.
fn node_address_of(item: &Item<'_>) -> Option<(EpId, u128)>
    ensures { result ≡ node_address_of (plain_item item.now) }
{
    match item {
        Item::Address {
            endpoint,
            address,
            ..
        } => Some((*endpoint, *address)),
        _ => None,
    }
}

/// Adds what is said to a list, if anything is.
pub(crate) fn push_said<T: Drop>(list: &mut Vec<T>, said: Option<T>) -> Result<(), NoMemory>
    ensures { OnOk result (list.new.items ≡ list.old.items ++ option_to_list said) }
{
    if let Some(said) = said {
        list.push(said)?;
    }
    Ok(())
}

impl Kept {
    /// Nothing, as of no items, with room for so many peers.
    pub(crate) fn with_room(alloc: Global, peers: usize) -> Result<Kept, NoMemory>
        ensures { IfOk result (AreKept []) }
    {
        let peers = Vec::with_capacity(alloc, peers)?;
        Ok(Kept {
            version: None,
            external: false,
            peers,
            intervals: Vec::new(alloc),
            delegations: Vec::new(alloc),
            assigned: Vec::new(alloc),
            addresses: Vec::new(alloc),
        })
    }

    // Adds what an item says.
    fn add_item(&mut self, item: &Item<'_>) -> Result<(), NoMemory>
        requires { (tlv : PlainTlv) × IsItem tlv (plain_item item.now) }
        ensures { OnOk result ((items : List PlainItem) → AreKept items self.old → AreKept (items ++ plain_item item.now ∷ []) self.new) }
    {
        self.version = self.version.or(caps_of(item));
        self.external |= is_external(item);
        push_said(&mut self.peers, peer_of(item))?;
        push_said(&mut self.intervals, interval_of(item))?;
        push_said(&mut self.assigned, assigned_prefix_of(item))?;
        push_said(&mut self.addresses, node_address_of(item))?;
        add_delegations(&mut self.delegations, item)
    }

    /// Adds what the item of a TLV says, if it has one.
    pub(crate) fn add(&mut self, tlv: &Tlv<'_>) -> Result<(), NoMemory>
        ensures { OnOk result ((tlvs : List PlainTlv) → AreKeptOf tlvs self.old → AreKeptOf (tlvs ++ plain tlv.now ∷ []) self.new) }
    {
        match read(tlv) {
            Ok(item) => self.add_item(&item),
            Err(_) => Ok(()),
        }
    }
}
