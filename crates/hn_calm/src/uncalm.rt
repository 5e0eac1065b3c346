//! Why the home of a router that is settled and quiet is not calm.

use hn_base::{EpId, Moment, Name, NodeId};

/// A peer of an endpoint of a router: an endpoint of a node.
#[derive(Clone, Copy)]
pub struct PeerAt {
    pub router: Name,
    pub endpoint: EpId,
    pub node: NodeId,
    pub peer: EpId,
}

/// Why the home of a running router that is settled and quiet is not calm: what the first premise that is missing is
/// about. The set of the router is the running routers that it reaches.
#[derive(Clone, Copy)]
pub enum Uncalm {
    /// A router runs that is not of the set.
    Apart {
        router: Name,
    },
    /// The copy of this number waits.
    Waits {
        copy: u64,
    },
    /// A peer is no endpoint of another one of the set on one link.
    Unlinked {
        at: PeerAt,
    },
    /// A peer was last heard 20 s ago or more.
    Unheard {
        at: PeerAt,
        contact: Moment,
    },
    /// What a peer sent last was not heard.
    Missed {
        at: PeerAt,
        contact: Moment,
        sent: Moment,
    },
    /// Something has ended by now that a router keeps or sees: a delegated prefix, a lifetime, or that node data are
    /// young.
    Ended {
        router: Name,
    },
}
