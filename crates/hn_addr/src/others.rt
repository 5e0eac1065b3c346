//! The addresses that the other nodes have.

ghost use Rattle.std.specs.Prelude.{◌≡◌, ◌↔◌, ◌==◌, ℕ, Contains, map, filter, not, IsTrue, IfOk};
ghost use Rattle.std.specs.Ordering.{nat_cmp};
ghost use Rattle.std.specs.List.Sorted.{IsStrictlySortedBy};
ghost use Rattle.hn_rules.specs.Seen.{seen_by};
ghost use Rattle.hn_addr.specs.Others.{addresses_of_others, AreOthers, HasAddressAbove};

use crate::of_node::{OfNode, from_nodes};
use hn_base::{EpId, NoMemory, NodeId, is_in_set, sort_to_set};
use hn_data::NodeData;
use hn_router::Router;
use std::alloc::Global;

/// An address, and a node that has it.
#[derive(Clone, Copy)]
pub(crate) struct Taken {
    pub node: NodeId,
    pub address: u128,
}

impl OfNode for Taken {
    ghost use Rattle.hn_data.specs.Said.{HasAddress};
    ghost use Rattle.hn_addr.specs.Others.{IsOfAddress};

    type Part = (EpId, u128);

    ghost says = { HasAddress };

    ghost makes = { IsOfAddress };

    fn parts(body: &NodeData) -> &[(EpId, u128)] {
        body.addresses()
    }

    fn from_part(node: NodeId, part: &(EpId, u128)) -> Option<Taken> {
        Some(Taken {
            node,
            address: part.1,
        })
    }
}

/// The addresses that nodes have: each with its node, and those of other nodes alone, in ascending order.
#[derive(Drop)]
pub(crate) struct Others {
    pub taken: Vec<Taken>,
    pub addresses: Vec<u128>,
}

/// The addresses of other nodes.
fn all_of(alloc: Global, own: NodeId, taken: &[Taken]) -> Result<Vec<u128>, NoMemory>
    ensures { IfOk result (λ all. all.items ≡ addresses_of_others own.0 taken.now) }
{
    Ok(
        taken
            .iter()
            .filter(|t| t.node != own)
            .map(|t| t.address)
            .collect(alloc)?,
    )
}

/// The same in ascending order, each once.
fn addresses_of(alloc: Global, own: NodeId, taken: &[Taken]) -> Result<Vec<u128>, NoMemory>
    ensures ascending { IfOk result (λ set. IsStrictlySortedBy nat_cmp set.items) }
    ensures same { IfOk result (λ set. (x : ℕ) → Contains set.items x ↔ Contains (addresses_of_others own.0 taken.now) x) }
{
    let mut set = all_of(alloc, own, taken)?;
    sort_to_set(&mut set);
    Ok(set)
}

impl Others {
    /// The addresses that other nodes have, as the router sees them.
    pub fn of(alloc: Global, router: &Router) -> Result<Others, NoMemory>
        ensures { IfOk result (AreOthers (seen_by router.now)) }
    {
        let taken = from_nodes(alloc, router)?;
        let addresses = addresses_of(alloc, router.id(), taken.as_slice())?;
        Ok(Others { taken, addresses })
    }

    /// Whether a node with a greater identifier has an address.
    pub fn is_above(&self, own: NodeId, address: u128) -> bool
        ensures { IsTrue result ↔ HasAddressAbove self.now.taken.items own address }
    {
        self.taken
            .iter()
            .any(|t| t.address == address && own < t.node)
    }

    /// Whether some node has an address.
    pub fn have(&self, address: u128) -> bool
        requires { IsStrictlySortedBy nat_cmp self.now.addresses.items }
        ensures { IsTrue result ↔ Contains self.now.addresses.items address }
    {
        is_in_set(self.addresses.as_slice(), &address)
    }
}
