//! An arrival that is let pass: a status update by multicast that changes next to nothing. On a link of many routers most
//! arrivals are such.

ghost use Rattle.std.specs.Prelude.{◌≡◌, ◌≢◌, ◌≤◌, ◌^◌, ◌||◌, not, true, length, IsTrue, IfSome, OnOk, OnErr};
ghost use Rattle.hn_tlv.specs.Grammar.{IsTlvAt};
ghost use Rattle.hn_tlv.specs.View.{plain};
ghost use Rattle.hn_dncp.specs.Ask.{may_ask};
ghost use Rattle.hn_dncp.specs.Peers.{has_peer};
ghost use Rattle.hn_rules.specs.Passing.{IsStatusUpdate, after_passing, IsLetPass};
ghost use Rattle.hn_rules.specs.Router.{IsRefreshed};

use crate::arrival::node_endpoint::stays_at;
use crate::present::Present;
use crate::running::Origin;
use crate::state::State;
use hn_base::{EpId, Moment, NoMemory, NodeId, link_local};
use hn_dncp::Port;
use hn_graph::reachability_stays;
use hn_hash::same_hash;
use hn_tlv::{Tlv, list_continues, next};
use hn_typed::{Item, read};

/// What an arrival changes that is let pass, beside the moment.
#[derive(Clone, Copy)]
pub struct Passing {
    /// The endpoint at which it arrives.
    pub endpoint: EpId,
    /// Who is heard there with the local network state hash, if it is that.
    pub heard: Option<(NodeId, EpId)>,
}

/// What a status update says: who sends it, and a network state hash.
#[derive(Clone, Copy)]
struct StatusUpdate {
    node: NodeId,
    endpoint: EpId,
    hash: [u8; 8],
}

/// The TLV that begins at a place, if there is one, and the place after it.
fn tlv_at(bytes: &[u8], place: usize) -> Option<(Tlv<'_>, usize)>
    requires { place ≤ length bytes.now }
    ensures { IfSome result (λ found. IsTlvAt bytes.now place (plain found.0) found.1) }
{
    match next(bytes, place) {
        Ok(found) => found,
        Err(_) => None,
    }
}

impl StatusUpdate {
    /// Reads a datagram; `None` where it is no status update.
    fn read(bytes: &[u8]) -> Option<StatusUpdate>
        ensures { IfSome result (λ update. IsStatusUpdate bytes.now update.node update.endpoint update.hash) }
    {
        list_continues();
        let (first, after) = tlv_at(bytes, 0)?;
        let (second, end) = tlv_at(bytes, after)?;
        if end < bytes.len() {
            return None;
        }
        let Ok(Item::NodeEndpoint { node, endpoint, .. }) = read(&first) else {
            return None;
        };
        let Ok(Item::NetworkState { hash, .. }) = read(&second) else {
            return None;
        };
        Some(StatusUpdate {
            node,
            endpoint,
            hash,
        })
    }
}

impl State {
    /// Whether the Node Endpoint of a multicast names its sender at an endpoint and changes nothing else: it is not refused,
    /// and the endpoint does not ask for the network state. Never allocates.
    fn names_alone(&self, port: &Port, node: NodeId, endpoint: EpId, now: Moment) -> bool
        ensures numbered { IsTrue result → endpoint.0 ≢ 0 }
        ensures other { IsTrue result → node.0 ≢ self.now.id.0 }
        ensures stays { IsTrue result → (has_peer node endpoint port.now.peers || not (may_ask now port.now.asked)) ≡ true }
    {
        endpoint != EpId(0) && node != self.id && stays_at(port, node, endpoint, now)
    }

    /// What changes where a datagram arrives at a moment, if it is let pass; `None` where more may change. A refresh at
    /// that moment changes nothing then. Never allocates.
    pub fn passing(&self, from: &Origin, bytes: &[u8], now: Moment) -> Option<Passing>
        requires refreshed { IsRefreshed self.now }
        requires not_before { self.now.moment ≤ now }
        requires in_range { now ≤ 2 ^ 48 }
        ensures { IfSome result (IsLetPass from.now bytes.now now self.now) }
    {
        reachability_stays();
        if !from.multicast || !link_local(&from.from) {
            return None;
        }
        let ports = self.ports.get();
        let _kept = ports.as_slice();
        let port = ports.find(from.endpoint)?;
        let StatusUpdate {
            node,
            endpoint,
            hash,
        } = StatusUpdate::read(bytes)?;
        if !self.names_alone(port, node, endpoint, now) || !self.is_refresh_undue(now) {
            return None;
        }
        if same_hash(hash, self.net) {
            return Some(Passing {
                endpoint: from.endpoint,
                heard: Some((node, endpoint)),
            });
        }
        if port.may_ask(now) {
            return None;
        }
        Some(Passing {
            endpoint: from.endpoint,
            heard: None,
        })
    }

    /// Lets an arrival pass at a moment. No moment is kept then at which something is next due.
    ///
    /// # Errors
    ///
    /// Out of memory; the state is as before then.
    pub fn let_pass(&mut self, passing: Passing, now: Moment) -> Result<(), NoMemory>
        requires { now ≤ 2 ^ 48 }
        ensures ok { OnOk result (self.new ≡ after_passing passing now self.old) }
        ensures err { OnErr result (self.new ≡ self.old) }
    {
        if let Some(sender) = passing.heard {
            self.ports.edit()?.hear(passing.endpoint, sender, now);
        }
        self.moment = Present::new(now);
        self.due = 0;
        Ok(())
    }
}
