ghost use Rattle.std.specs.Prelude.{◌≡◌};
ghost use Rattle.hn_router_c.specs.Kinds.{sent_of, assigned_of, note_of, took_number, used_of, elected_of, own_address, address_out, letter_of, departed_of, peer_out, known_out};

use hn_base::{EpId, Letter, Moment, NodeId};
use hn_deleg::Delegated;
use hn_departed::Told;
use hn_dncp::Neighbour;
use hn_rules::Outgoing;
use hn_store::{HeldNode, Took};

/// The port of HNCP (RFC 7788, section 14).
const PORT: u16 = 8231;

/// The group ff02::11, of all nodes with HNCP on a link (RFC 7788, section 14).
const GROUP: u128 = 338_963_523_518_870_617_245_727_861_364_146_307_089;

/// Where a datagram goes.
#[repr(C)]
#[derive(Clone, Copy)]
pub struct Sent {
    /// The endpoint on which it is sent.
    pub endpoint: u32,
    /// 1 where it goes to one node, and 0 where it is multicast.
    pub unicast: u8,
    /// A UDP port, 8231 where the datagram is multicast.
    pub port: u16,
    /// An IPv6 address, ff02::11 where the datagram is multicast.
    pub to: [u8; 16],
}

/// A prefix that is assigned to the link of an endpoint.
#[repr(C)]
#[derive(Clone, Copy)]
pub struct Assigned {
    /// The endpoint, or 0 for the private link.
    pub endpoint: u32,
    /// The length of the prefix in bits, 0 to 128.
    pub length: u8,
    /// 1 where the assignment was kept long enough to be used, and else 0.
    pub applied: u8,
    pub prefix: [u8; 16],
    /// The delegated prefix that it lies in.
    pub delegated: [u8; 16],
    pub delegated_length: u8,
}

/// A delegated prefix that is used, with what is left of its lifetimes in milliseconds; 2^64 - 1 is one that never ends.
#[repr(C)]
#[derive(Clone, Copy)]
pub struct Used {
    pub valid: u64,
    pub preferred: u64,
    /// The length of the prefix in bits, 0 to 128.
    pub length: u8,
    pub prefix: [u8; 16],
}

/// Who is elected.
#[repr(C)]
#[derive(Clone, Copy)]
pub struct Elected {
    /// The identifier, and 0 where nobody is elected.
    pub id: u32,
    /// 1 where a node is elected, and else 0.
    pub some: u8,
}

/// What a router noted.
#[repr(C)]
#[derive(Clone, Copy)]
pub struct Note {
    /// The place of the fault, the kind of the TLV, the other node, or the sequence number.
    pub number: u64,
    /// 1 to 7: from an address that is not link-local; no list of TLVs; a TLV that was not followed; the state of another
    /// node; another node claims the own identifier; no room for one more peer; refused.
    pub kind: u8,
    /// Why, or what came of the state of another node.
    pub why: u8,
}

/// A prefix that was advertised on an endpoint.
#[repr(C)]
#[derive(Clone, Copy)]
pub struct Departed {
    pub endpoint: u32,
    /// What is left of its valid lifetime, in whole seconds, rounded down; 2^32 - 1 is one that never ends.
    pub valid: u32,
    /// 1 where an advertisement went without it, and else 0.
    pub departed: u8,
    /// The length of the prefix in bits, 0 to 128.
    pub length: u8,
    pub prefix: [u8; 16],
}

/// A peer on the link of an endpoint: an endpoint of another node there.
#[repr(C)]
#[derive(Clone, Copy)]
pub struct Peer {
    /// The moment at which it was last heard, in milliseconds.
    pub contact: u64,
    /// The identifier of the node.
    pub id: u32,
    /// The endpoint, by the node's own number.
    pub endpoint: u32,
    /// The UDP port that it sends from.
    pub port: u16,
    /// The address that it sends from.
    pub address: [u8; 16],
}

/// What is known of another node, beside its data.
#[repr(C)]
#[derive(Clone, Copy)]
pub struct Known {
    /// The moment at which its sequence number came, in milliseconds.
    pub came: u64,
    /// The identifier.
    pub id: u32,
    /// The sequence number.
    pub number: u32,
    /// How old its data were then, in milliseconds.
    pub age: u32,
    /// 1 where it is reachable, and else 0.
    pub reachable: u8,
    /// The hash of its data.
    pub hash: [u8; 8],
}

/// An address of the router, on an endpoint.
#[repr(C)]
#[derive(Clone, Copy)]
pub struct Address {
    pub endpoint: u32,
    pub address: [u8; 16],
}

/// Where a datagram goes. Never allocates.
pub(crate) fn sent_of(outgoing: &Outgoing) -> Sent
    ensures { result ≡ sent_of outgoing.now }
{
    let endpoint = outgoing.endpoint.0;
    match outgoing.to {
        Some(to) => Sent {
            endpoint,
            unicast: 1,
            port: to.port,
            to: to.ip.to_be_bytes(),
        },
        None => Sent {
            endpoint,
            unicast: 0,
            port: PORT,
            to: GROUP.to_be_bytes(),
        },
    }
}

/// An assignment. Never allocates.
pub(crate) fn assigned_of(assigned: &hn_assign::Assigned) -> Assigned
    ensures { result ≡ assigned_of assigned.now }
{
    Assigned {
        endpoint: assigned.endpoint.0,
        length: assigned.prefix.len(),
        applied: if assigned.applied { 1 } else { 0 },
        prefix: assigned.prefix.bits().to_be_bytes(),
        delegated: assigned.delegated.bits().to_be_bytes(),
        delegated_length: assigned.delegated.len(),
    }
}

/// A delegated prefix. Never allocates.
pub(crate) fn used_of(delegated: &Delegated) -> Used
    ensures { result ≡ used_of delegated.now }
{
    Used {
        valid: delegated.valid,
        preferred: delegated.preferred,
        length: delegated.prefix.len(),
        prefix: delegated.prefix.bits().to_be_bytes(),
    }
}

/// A prefix that was advertised, at a moment. Never allocates.
pub(crate) fn departed_of(now: Moment, told: &(EpId, Told)) -> Departed
    ensures { result ≡ departed_of now told.now }
{
    Departed {
        endpoint: told.0.0,
        valid: told.1.left(now),
        departed: if told.1.departed.is_some() { 1 } else { 0 },
        length: told.1.prefix.len(),
        prefix: told.1.prefix.bits().to_be_bytes(),
    }
}

/// A peer. Never allocates.
pub(crate) fn peer_out(peer: &Neighbour) -> Peer
    ensures { result ≡ peer_out peer.now }
{
    Peer {
        contact: peer.contact,
        id: peer.node.0,
        endpoint: peer.endpoint.0,
        port: peer.addr.port,
        address: peer.addr.ip.to_be_bytes(),
    }
}

/// What is known of another node. Never allocates.
pub(crate) fn known_out(node: &HeldNode) -> Known
    ensures { result ≡ known_out node.now }
{
    Known {
        came: node.stored.at,
        id: node.id.0,
        number: node.stored.number,
        age: node.stored.age,
        reachable: if node.stored.lost.is_none() { 1 } else { 0 },
        hash: node.stored.hash,
    }
}

/// Who is elected. Never allocates.
pub(crate) fn elected_of(elected: Option<NodeId>) -> Elected
    ensures { result ≡ elected_of elected }
{
    match elected {
        Some(id) => Elected { id: id.0, some: 1 },
        None => Elected { id: 0, some: 0 },
    }
}

// What came of the state of another node, from 0 on.
fn took_number(how: Took) -> u8
    ensures { result ≡ took_number how }
{
    match how {
        Took::Kept => 0,
        Took::Renumbered => 1,
        Took::Ask => 2,
        Took::Stale => 3,
        Took::BadHash => 4,
        Took::BadBody => 5,
        Took::TooLong => 6,
        Took::Full => 7,
        Took::Own => 8,
    }
}

/// What is noted. Never allocates.
pub(crate) fn note_of(noted: hn_rules::Note) -> Note
    ensures { result ≡ note_of noted }
{
    let (number, kind, why) = match noted {
        hn_rules::Note::Far => (0, 1, 0),
        hn_rules::Note::Malformed { place, why } => (place as u64, 2, why),
        hn_rules::Note::Ignored { kind, why } => (u64::from(kind), 3, why),
        hn_rules::Note::Took { node, how } => (u64::from(node.0), 4, took_number(how)),
        hn_rules::Note::Own { number } => (u64::from(number), 5, 0),
        hn_rules::Note::PeersFull => (0, 6, 0),
        hn_rules::Note::Refused => (0, 7, 0),
    };
    Note { number, kind, why }
}

/// A service of a number, 0 to 3: M, P, H and L. Never allocates.
pub(crate) fn letter_of(number: u8) -> Option<Letter>
    ensures { result ≡ letter_of number }
{
    match number {
        0 => Some(Letter::M),
        1 => Some(Letter::P),
        2 => Some(Letter::H),
        3 => Some(Letter::L),
        _ => None,
    }
}

/// An own address, as the router has it. Never allocates.
pub(crate) fn own_address(address: &Address) -> (EpId, u128)
    ensures { result ≡ own_address address.now }
{
    (EpId(address.endpoint), u128::from_be_bytes(address.address))
}

/// An own address of the router. Never allocates.
pub(crate) fn address_out(own: &(EpId, u128)) -> Address
    ensures { result ≡ address_out own.now }
{
    Address {
        endpoint: own.0.0,
        address: own.1.to_be_bytes(),
    }
}
