ghost use Rattle.std.specs.Prelude.{◌≡◌, ◌↔◌, ◌++◌, ◌∷◌, [], IsTrue, OnOk};
ghost use Rattle.hn_rules.specs.Done.{nothing};

use hn_base::{Addr, Bytes, EpId, NoMemory, NodeId, Sequence, Words};
use hn_data::NodeData;
use hn_store::Took;
use std::alloc::Global;

/// A datagram that a router sends.
#[derive(Drop)]
pub struct Outgoing {
    /// The endpoint on which it is sent.
    pub endpoint: EpId,
    /// Where it goes; `None` is multicast on the endpoint's link.
    pub to: Option<Addr>,
    /// Its bytes, at most 65,507.
    pub bytes: Bytes,
}

/// What a router notes of an event.
#[derive(Clone, Copy)]
pub enum Note {
    /// A datagram came from an address that is not link-local.
    Far,
    /// A datagram is no list of TLVs (RFC 7787, section 7): the place of its first fault, in bytes, and the cause, as
    /// `hn_tlv::check` gives them.
    Malformed { place: usize, why: u8 },
    /// A TLV was not followed: 1 to 4 as `hn_typed` refuses it; of a Node Endpoint 5 where the sender was named already,
    /// 6 with the own identifier, 7 with endpoint 0.
    Ignored { kind: u16, why: u8 },
    /// What came of the state of another node (RFC 7787, section 4.4).
    Took { node: NodeId, how: Took },
    /// Another node claims the own identifier, with this sequence number. It stands in place of `Took`.
    Own { number: u32 },
    /// An endpoint has no room for one more peer.
    PeersFull,
    /// The event was refused.
    Refused,
}

/// Node data that a router published (RFC 7787, section 7.2.3).
#[derive(Drop)]
pub struct Publication {
    pub id: NodeId,
    pub number: u32,
    pub body: NodeData,
}

/// What came of an event, each list in the order in which it came up.
#[derive(Drop)]
pub struct Done {
    pub sends: Sequence<Outgoing>,
    pub notes: Sequence<Note>,
    pub published: Sequence<Publication>,
    /// The random words that were taken.
    pub words: Words,
}

impl Done {
    /// Nothing. Never allocates.
    pub fn new(alloc: Global) -> Done
        ensures { result ≡ nothing }
    {
        Done {
            sends: Sequence::new(alloc),
            notes: Sequence::new(alloc),
            published: Sequence::new(alloc),
            words: Words::new(alloc),
        }
    }

    /// Whether nothing came of the event. Never allocates.
    pub(crate) fn is_nothing(&self) -> bool
        ensures { IsTrue result ↔ (self.now ≡ nothing) }
    {
        self.sends.is_empty()
            && self.notes.is_empty()
            && self.published.is_empty()
            && self.words.is_empty()
    }
}
