use crate::of_pairs::OfPairs;
use hn_base::{EpId, Moment};
use hn_prefix::Prefix;

/// A pair of a delegated prefix and an endpoint that waits before an assignment is made for it (RFC 7695,
/// section 4.1).
#[derive(Clone, Copy, PartialEq, Eq)]
pub struct Backoff {
    pub delegated: Prefix,
    pub endpoint: EpId,
    /// The moment from which on the assignment may be made.
    pub due: Moment,
}

/// A router's backoffs, strictly ascending by delegated prefix and endpoint. Contracts see their list.
pub type Backoffs = OfPairs<Backoff>;
