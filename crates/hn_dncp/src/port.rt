ghost use Rattle.std.specs.Prelude.{◌≡◌, ◌^◌, ◌≤◌};
ghost use Rattle.hn_dncp.specs.Port.{attached_port};

use crate::peers::Peers;
use hn_base::{EpId, Moment};
use hn_timers::{SHORTEST_INTERVAL, Trickle};
use std::alloc::{AllocError, Global};

/// An endpoint of the own node, attached to a link (RFC 7787, section 2).
#[derive(Drop)]
pub struct Port {
    /// Its identifier.
    pub id: EpId,
    /// When its Network State is sent (RFC 7787, section 4.3).
    pub trickle: Trickle,
    /// When its timers last sent a Network State, or when it was attached.
    pub sent: Moment,
    /// When it last asked for the network state.
    pub asked: Option<Moment>,
    /// Its peers.
    pub peers: Peers,
}

impl Port {
    /// An endpoint that is attached now; the word says when Trickle first fires. Never allocates.
    pub fn start(alloc: Global, id: EpId, now: Moment, word: u32) -> Port
        requires { now ≤ 2 ^ 48 }
        ensures { result ≡ attached_port id now word }
    {
        Port {
            id,
            trickle: Trickle::start(now, SHORTEST_INTERVAL, word),
            sent: now,
            asked: None,
            peers: Peers::new(alloc),
        }
    }
}

/// The clone has its peers in new memory.
impl Clone for Port {
    ghost is_clone = { λ port copy. copy ≡ port };

    /// # Errors
    ///
    /// Out of memory, as `AllocError`.
    fn clone(&self) -> Result<Port, AllocError> {
        Ok(Port {
            id: self.id,
            trickle: self.trickle,
            sent: self.sent,
            asked: self.asked,
            peers: self.peers.clone()?,
        })
    }
}
