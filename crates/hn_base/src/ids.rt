/// A point in time, in milliseconds. One that is handed to a call is at most 2^48.
pub type Moment = u64;

/// The identifier of a node, 4 bytes in this profile (RFC 7788, section 3).
#[derive(Clone, Copy, PartialEq, Eq, PartialOrd, Ord)]
pub struct NodeId(pub u32);

/// The identifier of a node's endpoint, 4 bytes; 0 is no endpoint (RFC 7787, section 2).
#[derive(Clone, Copy, PartialEq, Eq, PartialOrd, Ord)]
pub struct EpId(pub u32);
