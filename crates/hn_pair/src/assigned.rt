use hn_base::{Endpoints, EpId, Moment};
use hn_prefix::Prefix;

/// A prefix that a router has assigned to the link of one of its endpoints, inside a delegated prefix (RFC 7695,
/// section 2).
#[derive(Clone, Copy, PartialEq, Eq)]
pub struct Assigned {
    pub delegated: Prefix,
    pub endpoint: EpId,
    pub prefix: Prefix,
    /// The priority, 0 to 15, where the router advertises the assignment itself.
    pub published: Option<u8>,
    /// Since when the endpoint has this prefix.
    pub since: Moment,
    /// Whether the assignment was kept long enough to be used (RFC 7695, section 4.3).
    pub applied: bool,
}

/// What a router asks for one pair of a delegated prefix and an endpoint.
#[derive(Drop)]
pub struct Wish {
    pub delegated: Prefix,
    /// Whether the delegated prefix is wanted (RFC 7788, section 6.3).
    pub wanted: bool,
    pub endpoint: EpId,
    /// The endpoints of the link of `endpoint`: its Common Link (RFC 7788, section 6.1).
    pub common: Endpoints,
    /// The length of the prefixes that the link gets, 1 to 64 bits.
    pub length: u8,
}
