//! Items read from TLVs, kind by kind (RFC 7787, section 7; RFC 7788, section 10).

ghost use Rattle.std.specs.Prelude.{◌≡◌, ℕ};
ghost use Rattle.hn_typed.specs.Reading.{ReadsValue};

use crate::fault::NO_TEXT;
use crate::fields::{halves, hash, ipv6, lower_half, reserved, word};
use crate::item::{
    ADDRESS, ASSIGNED, DELEGATED, EXTERNAL, Item, KEEP_ALIVE, NETWORK_STATE, NODE_ENDPOINT,
    NODE_STATE, PEER, REQUEST_NETWORK, REQUEST_NODE, VERSION,
};
use crate::prefix::split_prefix;
use crate::subs::subs_after;
use hn_base::{Caps, EpId, NodeId};

/// The item that a value of this kind decodes to: a table with a row for each kind.
#[inline(always)]
pub(crate) fn read_value(kind: u16, value: &[u8]) -> Result<Item<'_>, u8>
    ensures { ReadsValue kind value.now result }
{
    match kind {
        REQUEST_NETWORK => request_network(value),
        REQUEST_NODE => request_node(value),
        NODE_ENDPOINT => node_endpoint(value),
        NETWORK_STATE => network_state(value),
        NODE_STATE => node_state(value),
        PEER => peer(value),
        KEEP_ALIVE => keep_alive(value),
        VERSION => version(value),
        EXTERNAL => external(value),
        DELEGATED => delegated(value),
        ASSIGNED => assigned(value),
        ADDRESS => address(value),
        _ => Ok(Item::Other { kind, value }),
    }
}

#[inline(always)]
fn request_network(value: &[u8]) -> Result<Item<'_>, u8>
    ensures { ReadsValue 1 value.now result }
{
    let subs = subs_after(0, value)?;
    Ok(Item::RequestNetwork { subs })
}

#[inline(always)]
fn request_node(value: &[u8]) -> Result<Item<'_>, u8>
    ensures { ReadsValue 2 value.now result }
{
    let (node, after) = word(value)?;
    let subs = subs_after(4, after)?;
    let node = NodeId(node);
    Ok(Item::RequestNode { node, subs })
}

#[inline(always)]
fn node_endpoint(value: &[u8]) -> Result<Item<'_>, u8>
    ensures { ReadsValue 3 value.now result }
{
    let (node, after) = word(value)?;
    let (endpoint, after) = word(after)?;
    let subs = subs_after(8, after)?;
    Ok(Item::NodeEndpoint {
        node: NodeId(node),
        endpoint: EpId(endpoint),
        subs,
    })
}

#[inline(always)]
fn network_state(value: &[u8]) -> Result<Item<'_>, u8>
    ensures { ReadsValue 4 value.now result }
{
    let (hash, after) = hash(value)?;
    let subs = subs_after(8, after)?;
    let hash = *hash;
    Ok(Item::NetworkState { hash, subs })
}

#[inline(always)]
fn node_state(value: &[u8]) -> Result<Item<'_>, u8>
    ensures { ReadsValue 5 value.now result }
{
    let (node, after) = word(value)?;
    let (number, after) = word(after)?;
    let (age, after) = word(after)?;
    let (hash, body) = hash(after)?;
    let node = NodeId(node);
    let hash = *hash;
    Ok(Item::NodeState {
        node,
        number,
        age,
        hash,
        body,
    })
}

#[inline(always)]
fn peer(value: &[u8]) -> Result<Item<'_>, u8>
    ensures { ReadsValue 8 value.now result }
{
    let (peer, after) = word(value)?;
    let (peer_endpoint, after) = word(after)?;
    let (endpoint, after) = word(after)?;
    let subs = subs_after(12, after)?;
    Ok(Item::Peer {
        peer: NodeId(peer),
        peer_endpoint: EpId(peer_endpoint),
        endpoint: EpId(endpoint),
        subs,
    })
}

fn keep_alive(value: &[u8]) -> Result<Item<'_>, u8>
    ensures { ReadsValue 9 value.now result }
{
    let (endpoint, after) = word(value)?;
    let (interval, after) = word(after)?;
    let subs = subs_after(8, after)?;
    let endpoint = EpId(endpoint);
    Ok(Item::KeepAlive {
        endpoint,
        interval,
        subs,
    })
}

fn version(value: &[u8]) -> Result<Item<'_>, u8>
    ensures { ReadsValue 32 value.now result }
{
    let after = reserved(value)?;
    let after = reserved(after)?;
    let (m, p, after) = halves(after)?;
    let (h, l, agent) = halves(after)?;
    let caps = Caps { m, p, h, l };
    match str::from_utf8(agent) {
        Ok(agent) => Ok(Item::Version { caps, agent }),
        Err(_) => Err(NO_TEXT),
    }
}

fn external(value: &[u8]) -> Result<Item<'_>, u8>
    ensures { ReadsValue 33 value.now result }
{
    let subs = subs_after(0, value)?;
    Ok(Item::External { subs })
}

fn delegated(value: &[u8]) -> Result<Item<'_>, u8>
    ensures { ReadsValue 34 value.now result }
{
    let (valid, after) = word(value)?;
    let (preferred, field) = word(after)?;
    let (prefix, after) = match split_prefix(field) {
        Ok(found) => found,
        Err(why) => return Err(why),
    };
    let subs = subs_after(value.len() - after.len(), after)?;
    Ok(Item::Delegated {
        valid,
        preferred,
        prefix,
        subs,
    })
}

fn assigned(value: &[u8]) -> Result<Item<'_>, u8>
    ensures { ReadsValue 35 value.now result }
{
    let (endpoint, after) = word(value)?;
    let (priority, field) = lower_half(after)?;
    let (prefix, after) = match split_prefix(field) {
        Ok(found) => found,
        Err(why) => return Err(why),
    };
    let subs = subs_after(value.len() - after.len(), after)?;
    Ok(Item::Assigned {
        endpoint: EpId(endpoint),
        priority,
        prefix,
        subs,
    })
}

fn address(value: &[u8]) -> Result<Item<'_>, u8>
    ensures { ReadsValue 36 value.now result }
{
    let (endpoint, after) = word(value)?;
    let (address, after) = ipv6(after)?;
    let subs = subs_after(20, after)?;
    Ok(Item::Address {
        endpoint: EpId(endpoint),
        address,
        subs,
    })
}
