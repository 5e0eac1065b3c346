ghost use Rattle.std.specs.Prelude.{◌≡◌, IfOk, OnOk, OnErr};
ghost use Rattle.hn_dncp.specs.Greet.{greeting, greeted};

use crate::peers::Neighbour;
use crate::port::Port;
use hn_base::{Addr, EpId, Moment, NoMemory, NodeId};

/// What came of a Node Endpoint TLV.
#[derive(Clone, Copy)]
pub enum Greet {
    /// The sender is a peer.
    Known,
    /// The sender is a peer from now on.
    Added,
    /// The sender is no peer, and the endpoint has 64.
    Full,
    /// The sender is no peer, and the datagram came by multicast.
    Unknown,
}

impl Port {
    /// A datagram's sender is named by a Node Endpoint TLV (RFC 7787, section 4.5). By unicast a known peer's contact
    /// and address are renewed, and an unknown sender is added where there is room; by multicast nothing changes.
    ///
    /// `Known` exactly if the sender is a peer; `Unknown` exactly if it is none and the datagram came by multicast;
    /// `Full` exactly if it is none, the datagram came by unicast, and the endpoint has 64 peers; else `Added`.
    ///
    /// # Errors
    ///
    /// Out of memory; the endpoint is as before then.
    pub fn greet(
        &mut self,
        node: NodeId,
        endpoint: EpId,
        from: Addr,
        multicast: bool,
        now: Moment,
    ) -> Result<Greet, NoMemory>
        ensures port { OnOk result (self.new ≡ greeted node endpoint from multicast now self.old) }
        ensures answer { IfOk result (λ greet. greet ≡ greeting node endpoint multicast self.old.peers) }
        ensures err { OnErr result (self.new ≡ self.old) }
    {
        if !multicast {
            return self.peers.meet(Neighbour {
                node,
                endpoint,
                contact: now,
                addr: from,
            });
        }
        if self.peers.has(node, endpoint) {
            Ok(Greet::Known)
        } else {
            Ok(Greet::Unknown)
        }
    }
}
