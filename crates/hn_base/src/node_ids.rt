ghost use Rattle.std.specs.Prelude.{◌↔◌, Contains, IsTrue};
ghost use Rattle.std.specs.List.Sorted.{IsStrictlySortedBy};

use crate::ascending::is_in_set;
use crate::ids::{EpId, NodeId};
use crate::sequence::Sequence;

/// Identifiers of nodes.
pub type NodeIds = Sequence<NodeId>;

/// Endpoints, each with its node.
pub type Endpoints = Sequence<(NodeId, EpId)>;

impl Sequence<NodeId> {
    ghost use Rattle.hn_base.specs.NodeIds.{node_cmp};

    /// Whether an identifier is among these, which are in strictly ascending order. Never allocates.
    pub fn contains(&self, id: NodeId) -> bool
        requires { IsStrictlySortedBy node_cmp self.now }
        ensures { IsTrue result ↔ Contains self.now id }
    {
        is_in_set(self.as_slice(), &id)
    }
}
