//! Items written as TLVs (RFC 7787, section 7; RFC 7788, section 10).

ghost use Rattle.std.specs.Prelude.{◌≡◌, ◌+◌, ◌≤◌, ◌++◌, All, ◌∷◌, [], List, length, replicate};
ghost use Rattle.std.specs.Prelude.{vec_len, vec_capacity, IsOk, OnOk, OnErr};
ghost use Rattle.hn_base.specs.Byte.{IsByte};
ghost use Rattle.hn_tlv.specs.Grammar.{IsTlv, tlv_size, spelling};
ghost use Rattle.hn_typed.specs.Fields.{two_in_byte};
ghost use Rattle.hn_typed.specs.Table.{IsItem, InRange};
ghost use Rattle.hn_typed.specs.Written.{kind_of, fixed_of, tail_of, zeros_before, zeros_of, value_of, tlv_of};
ghost use Rattle.hn_typed.specs.Written.{HasTlvsAfter, HasPriority, HasOtherKind, HasText};
ghost use Rattle.hn_typed.specs.View.{plain_item};
ghost use Rattle.hn_typed.specs.Tail.{IsTailOf};

use crate::fields::join_halves;
use crate::fixed::FixedPart;
use crate::item::{
    ADDRESS, ASSIGNED, DELEGATED, EXTERNAL, Item, KEEP_ALIVE, NETWORK_STATE, NODE_ENDPOINT,
    NODE_STATE, PEER, REQUEST_NETWORK, REQUEST_NODE, VERSION,
};
use hn_base::{Caps, NoMemory};
use hn_tlv::{padding, size};

// The fixed part of a version: two reserved bytes, and the priorities two in a byte.
fn caps_part(caps: &Caps) -> FixedPart
    ensures { result ≡ 0 ∷ 0 ∷ two_in_byte caps.now.m caps.now.p ∷ two_in_byte caps.now.h caps.now.l ∷ [] }
{
    FixedPart::new().then(&[
        0,
        0,
        join_halves(caps.m, caps.p),
        join_halves(caps.h, caps.l),
    ])
}

// The number of a kind, and what its value begins with.
#[derive(Drop)]
struct Beginning {
    kind: u16,
    fixed: FixedPart,
}

#[inline(always)]
fn begun(kind: u16, fixed: FixedPart) -> Beginning
    ensures { (result.kind ≡ kind) × (result.fixed ≡ fixed) }
{
    Beginning { kind, fixed }
}

// The number of the item's kind, and its fields with each reserved bit zero: a table with a row for each kind.
#[inline(always)]
fn beginning_of(item: &Item<'_>) -> Beginning
    ensures kind { result.kind ≡ kind_of (plain_item item.now) }
    ensures fixed { result.fixed ≡ fixed_of (plain_item item.now) }
    ensures in_range { HasPriority (plain_item item.now) → InRange (plain_item item.now) }
{
    let part = FixedPart::new();
    match item {
        Item::RequestNetwork { .. } => begun(REQUEST_NETWORK, part),
        Item::RequestNode { node, .. } => begun(REQUEST_NODE, part.word(node.0)),
        Item::NodeEndpoint { node, endpoint, .. } => {
            begun(NODE_ENDPOINT, part.word(node.0).word(endpoint.0))
        }
        Item::NetworkState { hash, .. } => begun(NETWORK_STATE, part.hash(hash)),
        Item::NodeState {
            node,
            number,
            age,
            hash,
            ..
        } => begun(
            NODE_STATE,
            part.word(node.0).word(*number).word(*age).hash(hash),
        ),
        Item::Peer {
            peer,
            peer_endpoint,
            endpoint,
            ..
        } => begun(
            PEER,
            part.word(peer.0).word(peer_endpoint.0).word(endpoint.0),
        ),
        Item::KeepAlive {
            endpoint,
            interval,
            ..
        } => begun(KEEP_ALIVE, part.word(endpoint.0).word(*interval)),
        Item::Version { caps, .. } => begun(VERSION, caps_part(caps)),
        Item::External { .. } => begun(EXTERNAL, part),
        Item::Delegated {
            valid,
            preferred,
            prefix,
            ..
        } => begun(DELEGATED, part.word(*valid).word(*preferred).prefix(prefix)),
        Item::Assigned {
            endpoint,
            priority,
            prefix,
            ..
        } => begun(
            ASSIGNED,
            part.word(endpoint.0).then(&[*priority]).prefix(prefix),
        ),
        Item::Address {
            endpoint,
            address,
            ..
        } => begun(ADDRESS, part.word(endpoint.0).then(&address.to_be_bytes())),
        Item::Other { kind, .. } => begun(*kind, part),
    }
}

// What stands after the fixed part of a value.
#[derive(Clone, Copy)]
enum Tail<'a> {
    // Sub-TLVs, after zeros if there are any.
    Subs(&'a [u8]),
    // Bytes as they are.
    Bytes(&'a [u8]),
}

// What stands after the item's fixed part.
#[inline(always)]
fn tail_of<'a>(item: &Item<'a>) -> Tail<'a>
    ensures bytes { IsTailOf result (plain_item item.now) }
    ensures text { HasText (plain_item item.now) }
{
    match item {
        Item::RequestNetwork { subs } => Tail::Subs(subs),
        Item::RequestNode { subs, .. } => Tail::Subs(subs),
        Item::NodeEndpoint { subs, .. } => Tail::Subs(subs),
        Item::NetworkState { subs, .. } => Tail::Subs(subs),
        Item::NodeState { body, .. } => Tail::Bytes(body),
        Item::Peer { subs, .. } => Tail::Subs(subs),
        Item::KeepAlive { subs, .. } => Tail::Subs(subs),
        Item::Version { agent, .. } => Tail::Bytes(agent.as_bytes()),
        Item::External { subs } => Tail::Subs(subs),
        Item::Delegated { subs, .. } => Tail::Subs(subs),
        Item::Assigned { subs, .. } => Tail::Subs(subs),
        Item::Address { subs, .. } => Tail::Subs(subs),
        Item::Other { value, .. } => Tail::Bytes(value),
    }
}

/// What stands after the item's fixed fields, as it is: its sub-TLVs, a node's data, the user agent, or the value of
/// another kind. Never allocates.
pub fn after_fields<'a>(item: &Item<'a>) -> &'a [u8]
    ensures { result.now ≡ tail_of (plain_item item.now) }
{
    match tail_of(item) {
        Tail::Subs(bytes) => bytes,
        Tail::Bytes(bytes) => bytes,
    }
}

// A TLV in parts: its kind, the fixed part of its value, how many zeros, and what follows them.
#[derive(Drop)]
struct Parts<'a> {
    kind: u16,
    fixed: FixedPart,
    zeros: usize,
    after: &'a [u8],
}

// The TLV of the item, in parts.
#[inline(always)]
fn parts_of<'a>(item: &Item<'a>) -> Parts<'a>
    ensures kind { result.kind ≡ kind_of (plain_item item.now) }
    ensures fixed { result.fixed ≡ fixed_of (plain_item item.now) }
    ensures zeros { result.zeros ≡ zeros_of (plain_item item.now) }
    ensures after { result.after.now ≡ tail_of (plain_item item.now) }
    ensures short { (length result.fixed ≤ 25) × (result.zeros ≤ 3) }
    ensures in_range { HasPriority (plain_item item.now) → InRange (plain_item item.now) }
    ensures text { HasText (plain_item item.now) }
{
    let beginning = beginning_of(item);
    let len = beginning.fixed.len();
    let (zeros, after) = match tail_of(item) {
        Tail::Subs([]) => (0, [].as_slice()),
        Tail::Subs(subs) => (padding(len), subs),
        Tail::Bytes(bytes) => (0, bytes),
    };
    Parts {
        kind: beginning.kind,
        fixed: beginning.fixed,
        zeros,
        after,
    }
}

// Adds bytes at the end, where there is room for them.
#[inline(always)]
fn put(out: &mut Vec<u8>, bytes: &[u8])
    requires room { vec_len out.old + length bytes.now ≤ vec_capacity out.old }
    ensures bytes { All IsByte bytes.now }
    ensures items { out.new.items ≡ out.old.items ++ bytes.now }
    ensures len { vec_len out.new ≡ vec_len out.old + length bytes.now }
    ensures capacity { vec_capacity out.old ≤ vec_capacity out.new }
{
    if bytes.is_empty() {
        return;
    }
    // It fails only if there is no room.
    let _ = out.extend_from_slice(bytes);
}

// Adds so many zeros at the end, where there is room for them.
#[inline(always)]
fn put_zeros(out: &mut Vec<u8>, count: usize)
    requires few { count ≤ 3 }
    requires room { vec_len out.old + count ≤ vec_capacity out.old }
    ensures items { out.new.items ≡ out.old.items ++ replicate count 0 }
    ensures len { vec_len out.new ≡ vec_len out.old + count }
    ensures capacity { vec_capacity out.old ≤ vec_capacity out.new }
{
    put(out, &[0; 3][..count]);
}

/// The length of the value that `write` makes, in bytes. Never allocates.
pub fn value_len(item: &Item<'_>) -> usize
    ensures { result ≡ length (value_of (plain_item item.now)) }
{
    let parts = parts_of(item);
    parts.fixed.len() + parts.zeros + parts.after.len()
}

/// Appends the TLV of the item (RFC 7787, section 7; RFC 7788, section 10): reserved bits are zero, and if there are
/// no sub-TLVs the value ends after its fixed fields. Reading it gives the item.
///
/// The value has at most 65,535 bytes, by `value_len`; a priority is at most 15; sub-TLVs are a list of TLVs; and an
/// item of another kind has none of the kinds that have a form of their own.
///
/// # Errors
///
/// `NoMemory`, and then `out` is as before.
#[inline(always)]
pub fn write(item: &Item<'_>, out: &mut Vec<u8>) -> Result<(), NoMemory>
    requires short { length (value_of (plain_item item.now)) ≤ 65535 }
    requires priority { HasPriority (plain_item item.now) }
    requires subs { HasTlvsAfter (plain_item item.now) }
    requires other_kind { HasOtherKind (plain_item item.now) }

    ensures ok { OnOk result (out.new.items ≡ out.old.items ++ spelling (tlv_of (plain_item item.now))) }
    ensures err { OnErr result (out.new.items ≡ out.old.items) }
    // With room for the TLV, it does not fail.
    ensures with_room { vec_len out.old + tlv_size (length (value_of (plain_item item.now)))
        ≤ vec_capacity out.old → IsOk result }

    // What is written is a TLV, which decodes to the item.
    ensures valid { OnOk result (IsTlv (tlv_of (plain_item item.now))) }
    ensures read_back { OnOk result (IsItem (tlv_of (plain_item item.now)) (plain_item item.now)) }
{
    let parts = parts_of(item);
    let (fixed, zeros, after) = (parts.fixed.as_slice(), parts.zeros, parts.after);
    let len = fixed.len() + zeros + after.len();
    out.reserve(size(len))?;
    let [first, second] = parts.kind.to_be_bytes();
    let [third, fourth] = (len as u16).to_be_bytes();
    put(out, &[first, second, third, fourth]);
    put(out, fixed);
    put_zeros(out, zeros);
    put(out, after);
    put_zeros(out, padding(len));
    Ok(())
}
