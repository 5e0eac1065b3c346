use hn_base::{
    Addr, Bytes, Caps, EpId, LinkLength, Moment, Name, NoMemory, NodeId, Sequence, Words,
};
use hn_prefix::Prefix;
use hn_rules::Note;
use std::error::Error;
use std::fmt;

/// What may happen in a world.
#[derive(Drop)]
pub enum WEvent {
    /// A new running router.
    Router {
        name: Name,
        id: NodeId,
    },
    /// A new link.
    Link {
        name: Name,
    },
    /// A router's endpoint is attached to a link. The endpoint is not 0.
    Attach {
        name: Name,
        endpoint: EpId,
        link: Name,
    },
    /// A router's endpoint is detached from its link.
    Detach {
        name: Name,
        endpoint: EpId,
    },
    /// A router gets a delegated prefix, or the same one anew, with its valid and its preferred lifetime in seconds;
    /// 4294967295 is one that never ends.
    External {
        name: Name,
        prefix: Prefix,
        valid: u32,
        preferred: u32,
    },
    /// A router no longer has a delegated prefix.
    Withdraw {
        name: Name,
        prefix: Prefix,
    },
    /// A router gets these capabilities.
    Caps {
        name: Name,
        caps: Caps,
    },
    /// A router gets a private link, of which the prefixes are of that length, or has none.
    Private {
        name: Name,
        length: Option<LinkLength>,
    },
    /// A router gets these addresses, each of an endpoint.
    Addresses {
        name: Name,
        list: Sequence<(EpId, u128)>,
    },
    /// A router stops.
    Stop {
        name: Name,
    },
    /// A router restarts, whether it runs or not.
    Start {
        name: Name,
    },
    /// The moment becomes this one, at most 2^48.
    Time {
        moment: Moment,
    },
    /// A router looks at its clock.
    Tick {
        name: Name,
    },
    /// A copy is delivered, whether it waits or not. Copies are numbered from 1.
    Deliver {
        copy: u64,
    },
    /// A copy waits no longer.
    Drop {
        copy: u64,
    },
    /// A datagram arrives from outside of the world.
    Inject {
        name: Name,
        endpoint: EpId,
        from: Addr,
        multicast: bool,
        bytes: Bytes,
    },
}

/// An event that was accepted, with the random words that it took, in order.
#[derive(Drop)]
pub struct Traced {
    pub event: WEvent,
    pub words: Words,
}

/// What came of an event: what routers noted, and its entry in the trace.
#[derive(Drop)]
pub(crate) struct Effect {
    pub notes: Sequence<Note>,
    pub traced: Traced,
}

/// Why an event did not happen.
#[derive(Clone, Copy, Debug, PartialEq, Eq)]
pub enum WorldFault {
    /// It is refused with this code: 7, a name is unknown or names the other kind; 8, the name of a new router or link is
    /// taken; 9, the 65th router in a world of version 1, the 129th in one of version 2, the 65th link, the 17th endpoint
    /// of a router, its ninth delegated prefix, or the 1,000,001st event; 10, the moment would fall; 11, the endpoint is
    /// in use or not attached; 12, the router is stopped; 13, there is no such copy; 14, the router already has an
    /// endpoint on that link; 16, there are 1,000,000 copies, or they and the injected datagrams have 2^28 bytes
    /// together; 18, two routers that are to exchange what they hold are not peers of each other on one link; 19, the
    /// addresses are not in strictly ascending order, more than 64, or one is of an endpoint that is not attached.
    Refused(u8),
    /// Out of memory.
    NoMemory,
}

impl fmt::Display for WorldFault {
    fn fmt<W: fmt::Write>(&self, f: &mut fmt::Formatter<W>) -> fmt::Result {
        match self {
            WorldFault::Refused(code) => write!(f, "refused with code {code}"),
            WorldFault::NoMemory => f.write_str("out of memory"),
        }
    }
}

impl Error for WorldFault {}

impl From<NoMemory> for WorldFault {
    ghost use Rattle.std.specs.Prelude.{◌≡◌};
    ghost use Rattle.hn_world.specs.declared.event.WorldFault.TheVariants as fault;

    ghost from_gives = { λ _ e. e ≡ fault.NoMemory };

    fn from(_error: NoMemory) -> WorldFault {
        WorldFault::NoMemory
    }
}
