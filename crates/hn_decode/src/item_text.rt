//! What a line says of a TLV: the name of its item, and the item's fields.

ghost use Rattle.std.specs.Prelude.{◌≡◌, ◌++◌, OnOk, string_bytes, codes};
ghost use Rattle.std.specs.Fmt.{decimal};
ghost use Rattle.hn_base.specs.HexText.{hex_text, id_text};
ghost use Rattle.hn_prefix.specs.AddressText.{address_text_of};
ghost use Rattle.hn_prefix.specs.PrefixText.{prefix_text_of};
ghost use Rattle.hn_typed.specs.View.{plain_item};
ghost use Rattle.hn_decode.specs.ItemText.{item_text, bad_text, version_text, node_state_text};

use hn_base::{Caps, EpId, Hex, NodeId};
use hn_prefix::{Prefix, address_text};
use hn_typed::Item;
use std::alloc::AllocError;

fn push_request_node(out: &mut String, node: NodeId) -> Result<(), AllocError>
    ensures { OnOk result (string_bytes out.new ≡ string_bytes out.old ++ (codes "request-node node=" ++ id_text node.0)) }
{
    write!(out, "request-node node={node}")
}

fn push_node_endpoint(out: &mut String, node: NodeId, endpoint: EpId) -> Result<(), AllocError>
    ensures { OnOk result (string_bytes out.new ≡ string_bytes out.old
        ++ (codes "node-endpoint node=" ++ id_text node.0 ++ codes " endpoint=" ++ decimal endpoint.0)) }
{
    let endpoint = endpoint.0;
    write!(out, "node-endpoint node={node} endpoint={endpoint}")
}

fn push_network_state(out: &mut String, hash: [u8; 8]) -> Result<(), AllocError>
    ensures { OnOk result (string_bytes out.new ≡ string_bytes out.old ++ (codes "network-state hash=" ++ hex_text hash)) }
{
    let hash = Hex(hash.as_slice());
    write!(out, "network-state hash={hash}")
}

fn push_node_state(
    out: &mut String,
    node: NodeId,
    number: u32,
    age: u32,
    hash: [u8; 8],
) -> Result<(), AllocError>
    ensures { OnOk result (string_bytes out.new ≡ string_bytes out.old ++ node_state_text node.0 number age hash) }
{
    let hash = Hex(hash.as_slice());
    write!(
        out,
        "node-state node={node} number={number} age={age} hash={hash}"
    )
}

fn push_peer(
    out: &mut String,
    peer: NodeId,
    peer_endpoint: EpId,
    endpoint: EpId,
) -> Result<(), AllocError>
    ensures { OnOk result (string_bytes out.new ≡ string_bytes out.old
        ++ (codes "peer node=" ++ id_text peer.0 ++ codes " endpoint=" ++ decimal peer_endpoint.0
        ++ codes " own=" ++ decimal endpoint.0)) }
{
    let (theirs, own) = (peer_endpoint.0, endpoint.0);
    write!(out, "peer node={peer} endpoint={theirs} own={own}")
}

fn push_keep_alive(out: &mut String, endpoint: EpId, interval: u32) -> Result<(), AllocError>
    ensures { OnOk result (string_bytes out.new ≡ string_bytes out.old
        ++ (codes "keep-alive endpoint=" ++ decimal endpoint.0 ++ codes " interval=" ++ decimal interval)) }
{
    let endpoint = endpoint.0;
    write!(out, "keep-alive endpoint={endpoint} interval={interval}")
}

fn push_version(out: &mut String, caps: Caps, agent: &str) -> Result<(), AllocError>
    ensures { OnOk result (string_bytes out.new ≡ string_bytes out.old ++ version_text caps.m caps.p caps.h caps.l agent.now) }
{
    let (m, p, h, l) = (caps.m, caps.p, caps.h, caps.l);
    let agent = Hex(agent.as_bytes());
    write!(out, "version m={m} p={p} h={h} l={l} agent={agent}")
}

fn push_delegated(
    out: &mut String,
    valid: u32,
    preferred: u32,
    prefix: &Prefix,
) -> Result<(), AllocError>
    ensures { OnOk result (string_bytes out.new ≡ string_bytes out.old
        ++ (codes "delegated valid=" ++ decimal valid ++ codes " preferred=" ++ decimal preferred
        ++ codes " prefix=" ++ prefix_text_of prefix.now)) }
{
    let prefix = prefix.text();
    write!(
        out,
        "delegated valid={valid} preferred={preferred} prefix={prefix}"
    )
}

fn push_assigned(
    out: &mut String,
    endpoint: EpId,
    priority: u8,
    prefix: &Prefix,
) -> Result<(), AllocError>
    ensures { OnOk result (string_bytes out.new ≡ string_bytes out.old
        ++ (codes "assigned endpoint=" ++ decimal endpoint.0 ++ codes " priority=" ++ decimal priority
        ++ codes " prefix=" ++ prefix_text_of prefix.now)) }
{
    let endpoint = endpoint.0;
    let prefix = prefix.text();
    write!(
        out,
        "assigned endpoint={endpoint} priority={priority} prefix={prefix}"
    )
}

fn push_address(out: &mut String, endpoint: EpId, address: u128) -> Result<(), AllocError>
    ensures { OnOk result (string_bytes out.new ≡ string_bytes out.old
        ++ (codes "address endpoint=" ++ decimal endpoint.0 ++ codes " address=" ++ address_text_of address)) }
{
    let endpoint = endpoint.0;
    let address = address_text(address);
    write!(out, "address endpoint={endpoint} address={address}")
}

fn push_other(out: &mut String, value: &[u8]) -> Result<(), AllocError>
    ensures { OnOk result (string_bytes out.new ≡ string_bytes out.old ++ (codes "other value=" ++ hex_text value.now)) }
{
    let value = Hex(value);
    write!(out, "other value={value}")
}

/// Adds an item's name and its fields (RFC 7787, section 7; RFC 7788, section 10), without what lies within it.
pub(crate) fn push_item(out: &mut String, item: &Item<'_>) -> Result<(), AllocError>
    ensures { OnOk result (string_bytes out.new ≡ string_bytes out.old ++ item_text (plain_item item.now)) }
{
    match *item {
        Item::RequestNetwork { .. } => out.push_str("request-network"),
        Item::RequestNode { node, .. } => push_request_node(out, node),
        Item::NodeEndpoint { node, endpoint, .. } => push_node_endpoint(out, node, endpoint),
        Item::NetworkState { hash, .. } => push_network_state(out, hash),
        Item::NodeState {
            node,
            number,
            age,
            hash,
            ..
        } => push_node_state(out, node, number, age, hash),
        Item::Peer {
            peer,
            peer_endpoint,
            endpoint,
            ..
        } => push_peer(out, peer, peer_endpoint, endpoint),
        Item::KeepAlive {
            endpoint,
            interval,
            ..
        } => push_keep_alive(out, endpoint, interval),
        Item::Version { caps, agent } => push_version(out, caps, agent),
        Item::External { .. } => out.push_str("external"),
        Item::Delegated {
            valid,
            preferred,
            prefix,
            ..
        } => push_delegated(out, valid, preferred, &prefix),
        Item::Assigned {
            endpoint,
            priority,
            prefix,
            ..
        } => push_assigned(out, endpoint, priority, &prefix),
        Item::Address {
            endpoint,
            address,
            ..
        } => push_address(out, endpoint, address),
        Item::Other { value, .. } => push_other(out, value),
    }
}

/// Adds what is said of a TLV that decodes to no item: the cause, as `hn_typed::ItemFault` numbers it, and the
/// value.
pub(crate) fn push_bad(out: &mut String, why: u8, value: &[u8]) -> Result<(), AllocError>
    ensures { OnOk result (string_bytes out.new ≡ string_bytes out.old ++ bad_text why value.now) }
{
    let value = Hex(value);
    write!(out, "bad why={why} value={value}")
}
