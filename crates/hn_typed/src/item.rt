//! The kinds of TLV that have a form of their own, by their items and numbers.

use hn_base::{Caps, EpId, NodeId};
use hn_prefix::Prefix;

/// A TLV by its kind (RFC 7787, section 7; RFC 7788, section 10). What is read is lent by the text that it was read
/// from; `subs` are the bytes of the TLVs within, which are a list of TLVs.
#[derive(Clone, Copy)]
pub enum Item<'a> {
    /// Asks for the network state (RFC 7787, section 7.1.1).
    RequestNetwork {
        subs: &'a [u8],
    },
    /// Asks for a node's state (RFC 7787, section 7.1.2).
    RequestNode {
        node: NodeId,
        subs: &'a [u8],
    },
    /// Who sends, and by which of its endpoints (RFC 7787, section 7.2.1).
    NodeEndpoint {
        node: NodeId,
        endpoint: EpId,
        subs: &'a [u8],
    },
    /// The hash of the network's state (RFC 7787, section 7.2.2).
    NetworkState {
        hash: [u8; 8],
        subs: &'a [u8],
    },
    /// A node's state: its sequence number, its age in milliseconds, the hash of its data, and the data, which are
    /// left out where the body is empty (RFC 7787, section 7.2.3).
    NodeState {
        node: NodeId,
        number: u32,
        age: u32,
        hash: [u8; 8],
        body: &'a [u8],
    },
    /// A peer, the peer's endpoint and one's own (RFC 7787, section 7.3.1).
    Peer {
        peer: NodeId,
        peer_endpoint: EpId,
        endpoint: EpId,
        subs: &'a [u8],
    },
    /// The keep-alive interval of an endpoint, in milliseconds; endpoint 0 is each of them (RFC 7787, section 7.3.2).
    /// An interval of 0 says that no keep-alives are sent.
    KeepAlive {
        endpoint: EpId,
        interval: u32,
        subs: &'a [u8],
    },
    /// A node's priorities and its user agent, which may be empty (RFC 7788, section 10.1).
    Version {
        caps: Caps,
        agent: &'a str,
    },
    /// A connection to the outside (RFC 7788, section 10.2).
    External {
        subs: &'a [u8],
    },
    /// A delegated prefix, and its valid and preferred lifetime in seconds; 4294967295 is one that never ends (RFC
    /// 7788, section 10.2.1).
    Delegated {
        valid: u32,
        preferred: u32,
        prefix: Prefix,
        subs: &'a [u8],
    },
    /// An assigned prefix and its priority, 0 to 15 (RFC 7788, section 10.3).
    Assigned {
        endpoint: EpId,
        priority: u8,
        prefix: Prefix,
        subs: &'a [u8],
    },
    /// A node's address on an endpoint (RFC 7788, section 10.4).
    Address {
        endpoint: EpId,
        address: u128,
        subs: &'a [u8],
    },
    /// A TLV of any other kind, with its value as it is.
    Other {
        kind: u16,
        value: &'a [u8],
    },
}

/// Request Network State (RFC 7787, section 7.1.1).
pub const REQUEST_NETWORK: u16 = 1;

/// Request Node State (RFC 7787, section 7.1.2).
pub const REQUEST_NODE: u16 = 2;

/// Node Endpoint (RFC 7787, section 7.2.1).
pub const NODE_ENDPOINT: u16 = 3;

/// Network State (RFC 7787, section 7.2.2).
pub const NETWORK_STATE: u16 = 4;

/// Node State (RFC 7787, section 7.2.3).
pub const NODE_STATE: u16 = 5;

/// Peer (RFC 7787, section 7.3.1).
pub const PEER: u16 = 8;

/// Keep-Alive Interval (RFC 7787, section 7.3.2).
pub const KEEP_ALIVE: u16 = 9;

/// HNCP-Version (RFC 7788, section 10.1).
pub const VERSION: u16 = 32;

/// External-Connection (RFC 7788, section 10.2).
pub const EXTERNAL: u16 = 33;

/// Delegated-Prefix (RFC 7788, section 10.2.1).
pub const DELEGATED: u16 = 34;

/// Assigned-Prefix (RFC 7788, section 10.3).
pub const ASSIGNED: u16 = 35;

/// Node-Address (RFC 7788, section 10.4).
pub const ADDRESS: u16 = 36;
