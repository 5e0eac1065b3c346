ghost use Rattle.std.specs.Prelude.{◌↔◌, IsTrue};
ghost use Rattle.std.specs.Cmp.{IsTotalOrder};
ghost use Rattle.hn_base.specs.Key.{key_cmp};

use crate::ids::{EpId, NodeId};

/// What decides between prefixes that were assigned to one link: the priority, then the node identifier, then the
/// endpoint identifier, the greatest first (RFC 7695, section 4.1; RFC 7788, section 6.3.1).
///
/// Keys are ordered by priority, then node, then endpoint.
#[derive(Clone, Copy, PartialEq, Eq, PartialOrd, Ord)]
pub struct Key {
    /// The priority of the assignment, 0 to 15.
    pub priority: u8,
    /// The node that advertises the assignment.
    pub node: NodeId,
    /// The endpoint of that node that the prefix is assigned to.
    pub endpoint: EpId,
}

impl Key {
    ghost use Rattle.hn_base.specs.Key.{IsAbove};

    /// Whether this key is greater than the other. Never allocates.
    pub fn is_above(&self, other: &Key) -> bool
        ensures { IsTrue result ↔ IsAbove self.now other.now }
    {
        self > other
    }
}

/// The order of keys, `key_cmp`, is total.
pub fn key_order_is_total()
    ensures { IsTotalOrder key_cmp }
{}
