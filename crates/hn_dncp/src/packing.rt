ghost use Rattle.std.specs.Prelude.{◌≡◌, ◌<◌, ◌≤◌, length, take, drop, All, IfOk};
ghost use Rattle.hn_tlv.specs.Grammar.{spelling};
ghost use Rattle.hn_dncp.specs.Packing.{sender_tlv, IsFilled, IsPacking, IsShortDatagram};

use hn_base::{Bytes, EpId, NoMemory, NodeId, Sequence};
use hn_typed::{Item, write};
use std::alloc::Global;

/// The most bytes of a datagram that holds more than one TLV after its Node Endpoint.
pub const MOST_DATAGRAM_BYTES: usize = 4_000;

/// Datagrams, in the order in which they are sent.
pub type Datagrams = Sequence<Bytes>;

// How many bytes a Node Endpoint without sub-TLVs has.
const SENDER_SIZE: usize = 12;

// Room for a datagram with as many TLVs from the front as it holds, in bytes.
fn room(tlvs: &[Bytes]) -> usize {
    let mut room = SENDER_SIZE;
    for tlv in tlvs {
        let more = room.saturating_add(tlv.len());
        if more > MOST_DATAGRAM_BYTES && room > SENDER_SIZE {
            return room;
        }
        room = more;
    }
    room
}

// The Node Endpoint with which a datagram begins, with room for so many bytes.
fn sender(alloc: Global, own: NodeId, endpoint: EpId, room: usize) -> Result<Vec<u8>, NoMemory>
    ensures { IfOk result (λ bytes. bytes.items ≡ spelling (sender_tlv own endpoint)) }
{
    let mut bytes = Vec::with_capacity(alloc, room)?;
    let item = Item::NodeEndpoint {
        node: own,
        endpoint,
        subs: &[],
    };
    write(&item, &mut bytes)?;
    Ok(bytes)
}

// A datagram with as many TLVs from the front as it holds, and how many these are.
fn fill(
    alloc: Global,
    own: NodeId,
    endpoint: EpId,
    tlvs: &[Bytes],
) -> Result<(Bytes, usize), NoMemory>
    requires { 0 < length tlvs.now }
    ensures within { IfOk result (λ filled. filled.1 ≤ length tlvs.now) }
    ensures filled { IfOk result (λ filled.
        IsFilled own endpoint (take filled.1 tlvs.now) (drop filled.1 tlvs.now) filled.0) }
{
    let mut datagram = sender(alloc, own, endpoint, room(tlvs))?;
    datagram.extend_from_slice(tlvs[0].as_slice())?;
    for count in 1..tlvs.len() {
        let tlv = tlvs[count].as_slice();
        if datagram.len().saturating_add(tlv.len()) > MOST_DATAGRAM_BYTES {
            return Ok((Bytes::from(datagram), count));
        }
        datagram.extend_from_slice(tlv)?;
    }
    Ok((Bytes::from(datagram), tlvs.len()))
}

/// Packs TLVs, in order, into the datagrams that this endpoint of the own node sends (RFC 7787, section 4.2). Each
/// datagram begins with the Node Endpoint of its sender. A TLV begins a new datagram if and only if it would carry
/// one that already holds a further TLV past 4,000 bytes. Without TLVs there is no datagram.
///
/// # Errors
///
/// Out of memory.
pub fn pack(
    alloc: Global,
    own: NodeId,
    endpoint: EpId,
    tlvs: &[Bytes],
) -> Result<Datagrams, NoMemory>
    ensures packed { IfOk result (IsPacking own endpoint tlvs.now) }
    ensures short { IfOk result (All (IsShortDatagram tlvs.now)) }
{
    let mut datagrams = Datagrams::new(alloc);
    let mut at = 0;
    while at < tlvs.len() {
        let (datagram, count) = fill(alloc, own, endpoint, &tlvs[at..])?;
        datagrams.push(datagram)?;
        at += count;
    }
    Ok(datagrams)
}
