use hn_base::{EpId, NodeId};
use hn_prefix::Prefix;

/// A peer that a node says it has: one of the node's endpoints, the peer, and the peer's endpoint (RFC 7787,
/// section 7.3.1). Ordered by these, in this order.
#[derive(Clone, Copy, PartialEq, Eq, PartialOrd, Ord)]
pub struct PeerLink {
    pub endpoint: EpId,
    pub peer: NodeId,
    pub peer_endpoint: EpId,
}

/// The keep-alive interval of an endpoint, in milliseconds; endpoint 0 is each of them (RFC 7787, section 7.3.2). An
/// interval of 0 says that no keep-alives are sent.
#[derive(Clone, Copy)]
pub struct Interval {
    pub endpoint: EpId,
    pub interval: u32,
}

/// A delegated prefix with its lifetimes in seconds, 4294967295 for one that never ends (RFC 7788, section 10.2.1).
#[derive(Clone, Copy)]
pub struct Delegation {
    pub valid: u32,
    pub preferred: u32,
    pub prefix: Prefix,
}

/// A prefix that a node has assigned to the link of one of its endpoints, with its priority, 0 to 15 (RFC 7788,
/// section 10.3).
#[derive(Clone, Copy, PartialEq, Eq)]
pub struct AssignedPrefix {
    pub endpoint: EpId,
    pub priority: u8,
    pub prefix: Prefix,
}
