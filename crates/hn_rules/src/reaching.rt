//! What tells that the same nodes stay reachable: node data with the same peers, from which paths lead on.

ghost use Rattle.std.specs.Prelude.{◌≡◌, ◌↔◌, IsTrue, IfOk, OnOk, IfSome, IsSomeAnd, true, false};
ghost use Rattle.hn_rules.specs.KnownReach.{HaveSamePeers, IsLeading, LeadsAs};
ghost use Rattle.hn_rules.specs.Refresh.{IsReaching};

use crate::nodes::age_at;
use crate::running::Running;
use crate::state::State;
use hn_base::{NoMemory, NodeId};
use hn_data::{NodeData, PeerLink};
use hn_graph::AGE_LIMIT;
use std::alloc::Global;

/// What of that was touched which a refresh reads.
#[derive(Clone, Copy)]
pub(crate) struct Touched {
    /// Anything.
    pub(crate) any: bool,
    /// What decides which nodes are reachable, beside the own node data: the peers or the age of a held node.
    pub(crate) links: bool,
}

impl Touched {
    /// Whether the same nodes are known to be reachable, where the own node data say the same peers and no age is due.
    pub(crate) fn leaves_reach(&self, same: bool, recent: bool) -> bool
        ensures { result ≡ true → (same ≡ true) × (recent ≡ true) × (self.now.links ≡ false) }
    {
        same && recent && !self.links
    }
}

/// Nothing was touched.
pub(crate) const NOTHING: Touched = Touched {
    any: false,
    links: false,
};

/// Whether two lists have the same peers.
fn are_same(a: &[PeerLink], b: &[PeerLink]) -> bool
    ensures { IsTrue result ↔ (a.now ≡ b.now) }
{
    a == b
}

/// Whether two node data say the same peers. Never allocates.
pub(crate) fn say_same_peers(a: &NodeData, b: &NodeData) -> bool
    ensures { IsTrue result → HaveSamePeers a.now b.now }
{
    are_same(a.peers(), b.peers())
}

impl State {
    /// The node data that are held of a node, if paths lead on from it.
    pub(crate) fn leading(&self, id: NodeId) -> Result<Option<NodeData>, NoMemory>
        ensures { IfOk result (λ found. IfSome found (IsLeading self.now id.0)) }
    {
        let Some(stored) = self.table.get().get(id) else {
            return Ok(None);
        };
        if age_at(self.moment.get(), stored) >= AGE_LIMIT {
            return Ok(None);
        }
        Ok(Some(stored.body.share()?))
    }

    /// Whether paths lead on from a held node, and its node data say the same peers as these, if there are any. Never
    /// allocates.
    pub(crate) fn leads_as(&self, id: NodeId, before: &Option<NodeData>) -> bool
        ensures { IsTrue result → IsSomeAnd before.now (LeadsAs self.now id.0) }
    {
        let Some(before) = before else {
            return false;
        };
        match self.table.get().get(id) {
            Some(stored) => {
                age_at(self.moment.get(), stored) < AGE_LIMIT
                    && say_same_peers(before, &stored.body)
            }
            None => false,
        }
    }
}

impl Running {
    /// Reachability, and moments of loss. Where they are known to be as before, no node is visited.
    pub(crate) fn renew_reach(&mut self, alloc: Global, known: bool) -> Result<(), NoMemory>
        requires { known ≡ true → IsReaching self.old self.old }
        ensures { OnOk result (IsReaching self.old self.new) }
    {
        if known {
            return Ok(());
        }
        self.find_reach(alloc)
    }
}
