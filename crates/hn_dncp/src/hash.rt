ghost use Rattle.std.specs.Prelude.{◌≡◌};
ghost use Rattle.hn_dncp.specs.Hash.{hashed, asks_for_state};

use crate::port::Port;
use hn_base::{EpId, Moment, NodeId};

impl Port {
    /// A Network State TLV came (RFC 7787, section 4.4); `same` says whether its hash is the local one. Then it is a
    /// consistent message for Trickle, the contact of its sender is renewed, if it was named and is a peer, and the
    /// answer is `false`. Otherwise the answer is whether to ask now for the network state. Never allocates.
    pub fn hash(&mut self, same: bool, sender: Option<(NodeId, EpId)>, now: Moment) -> bool
        ensures answer { result ≡ asks_for_state same now self.old }
        ensures port { self.new ≡ hashed same sender now self.old }
    {
        if !same {
            return self.ask(now);
        }
        self.trickle.hear();
        if let Some((node, endpoint)) = sender {
            self.peers.hear(node, endpoint, now);
        }
        false
    }
}
