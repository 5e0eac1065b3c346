//! Why a router is not settled, and why it is not quiet.

use hn_base::{EpId, Name, NodeId};
use hn_prefix::Prefix;

/// Why a running router is not settled: what the first part of the definition that fails is about. Its set is the
/// running routers that it reaches.
#[derive(Clone, Copy)]
pub enum Unsettled {
    /// The router reaches an identifier that no running router has.
    Unknown {
        id: NodeId,
    },
    /// The router reaches an identifier that more than one running router has.
    Shared {
        id: NodeId,
    },
    /// One of the set reaches other nodes than the router does.
    OtherReach {
        router: Name,
    },
    /// One of the set holds nothing of another one, which has this identifier.
    NotHeld {
        router: Name,
        node: NodeId,
    },
    /// One of the set holds of another one, which has this identifier, another sequence number than the current one, or
    /// other node data under the same number.
    OldData {
        router: Name,
        node: NodeId,
        holds: u32,
        current: u32,
    },
    /// Two of the set use or want other delegated prefixes.
    OtherPrefixes {
        router: Name,
        other: Name,
    },
    /// A running router that is not of the set has an endpoint on a link on which one of the set has one. The link is
    /// given by its place in order of definition.
    Stranger {
        router: Name,
        endpoint: EpId,
        link: usize,
    },
    /// Two endpoints of the set are on one link, and are not linked.
    NotLinked {
        router: Name,
        endpoint: EpId,
        other: Name,
        other_endpoint: EpId,
    },
    /// Two endpoints of the set are linked, and are not on one link.
    NotOnOneLink {
        router: Name,
        endpoint: EpId,
        other: Name,
        other_endpoint: EpId,
    },
}

/// Why a running router is not quiet: what the assignment subroutine, run once more on one of its set with a due
/// backoff for each pair without an assignment, would do at a pair of a delegated prefix and an endpoint (RFC 7695,
/// section 4.1). Endpoint 0 is the private link.
#[derive(Clone, Copy)]
pub enum Unquiet {
    /// It has an assignment for a pair that it does not ask for, and would give its prefix up.
    Unasked {
        router: Name,
        endpoint: EpId,
        delegated: Prefix,
        prefix: Prefix,
    },
    /// It has no assignment, no other node advertises a best prefix, and one is wanted and free: it would make one.
    Makes {
        router: Name,
        endpoint: EpId,
        delegated: Prefix,
    },
    /// It has no assignment, and another node advertises the best prefix: it would take that.
    Takes {
        router: Name,
        endpoint: EpId,
        delegated: Prefix,
        best: Prefix,
    },
    /// It has an assignment that does not stay, and no other node advertises a best prefix: it would give its prefix up,
    /// or publish it.
    Drops {
        router: Name,
        endpoint: EpId,
        delegated: Prefix,
        prefix: Prefix,
    },
    /// It has an assignment that does not stay beside the best prefix, which another node advertises.
    Changes {
        router: Name,
        endpoint: EpId,
        delegated: Prefix,
        prefix: Prefix,
        best: Prefix,
    },
}
