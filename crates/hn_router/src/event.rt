use hn_base::{Addr, Caps, EpId, LinkLength};
use hn_prefix::Prefix;

/// What may happen to a router.
///
/// Refused are an arrival and a detachment at an endpoint that is not attached; an attachment of endpoint 0, of an
/// endpoint that is attached, and of a seventeenth; a ninth delegated prefix; and a list that may not be the own
/// addresses.
#[derive(Clone, Copy)]
pub enum Event<'a> {
    /// A datagram arrives at an endpoint.
    Arrive {
        endpoint: EpId,
        /// Its source.
        from: Addr,
        /// Whether it came by multicast.
        multicast: bool,
        bytes: &'a [u8],
    },
    /// Time has passed.
    Tick,
    /// An endpoint is attached to a link.
    Attach {
        endpoint: EpId,
    },
    /// An endpoint is detached from its link, with its peers and its addresses.
    Detach {
        endpoint: EpId,
    },
    /// A delegated prefix is added, or replaces the same one, with its valid and its preferred lifetime in seconds;
    /// 4294967295 is one that never ends (RFC 7788, section 10.2.1).
    External {
        prefix: Prefix,
        valid: u32,
        preferred: u32,
    },
    /// A delegated prefix is withdrawn.
    Withdraw {
        prefix: Prefix,
    },
    /// The router gets these capabilities (RFC 7788, section 10.1).
    Caps {
        caps: Caps,
    },
    /// The router gets a private link, of which the prefixes are of that length, or has none.
    Private {
        length: Option<LinkLength>,
    },
    /// The router gets these addresses, each of an endpoint, in strictly ascending order and at most 64 (RFC 7788, section
    /// 10.4).
    Addresses {
        list: &'a [(EpId, u128)],
    },
    /// The router restarts.
    Restart,
}
