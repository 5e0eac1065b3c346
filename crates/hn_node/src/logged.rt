//! What a node writes down.

ghost use Rattle.std.specs.Prelude.{◌≡◌};
ghost use Rattle.hn_router.specs.Act.{plain_event};
ghost use Rattle.hn_node.specs.Turns.{plain_of, is_arrival};

use hn_base::{Addr, Bytes, EpId, Moment, Sequence, Words};
use hn_router::Event;
use hn_rules::Outgoing;

/// What happens to the router of a node in a turn.
#[derive(Drop)]
pub enum NodeEvent {
    /// Time has passed.
    Tick,
    /// A datagram arrives at an endpoint.
    Arrive {
        endpoint: EpId,
        /// Its source.
        from: Addr,
        /// Whether it came by multicast.
        multicast: bool,
        bytes: Bytes,
    },
}

impl NodeEvent {
    /// The event, as a router takes it.
    pub(crate) fn event(&self) -> Event<'_>
        ensures { plain_event result ≡ plain_of self.now }
    {
        match self {
            NodeEvent::Tick => Event::Tick,
            NodeEvent::Arrive {
                endpoint,
                from,
                multicast,
                bytes,
            } => Event::Arrive {
                endpoint: *endpoint,
                from: *from,
                multicast: *multicast,
                bytes: bytes.as_slice(),
            },
        }
    }
}

/// An entry of a node's log: an event at a moment, the random words that it took, and the datagrams that came of it.
#[derive(Drop)]
pub struct Logged {
    pub moment: Moment,
    pub event: NodeEvent,
    pub words: Words,
    pub sends: Sequence<Outgoing>,
}

impl Logged {
    /// Whether a datagram arrived.
    pub(crate) fn is_arrival(&self) -> bool
        ensures { result ≡ is_arrival self.now }
    {
        match self.event {
            NodeEvent::Tick => false,
            NodeEvent::Arrive { .. } => true,
        }
    }
}
