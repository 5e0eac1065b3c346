//! What the nodes that a router reaches say of one kind, each thing with the node that says it.

ghost use Rattle.std.specs.Prelude.{◌↔◌, ◌⊎◌, Contains, IfOk, OnOk};
ghost use Rattle.hn_rules.specs.Seen.{seen_by};
ghost use Rattle.hn_addr.specs.OfNodes.{IsGivenByOne, IsOfNode, AreOfNodes};

use hn_base::{NoMemory, NodeId};
use hn_data::{Entry, NodeData, version};
use hn_router::Router;
use std::alloc::Global;

/// What nodes say of one kind, as addresses: something that is made of a part of a node's data, and of the node.
pub trait OfNode {
    ghost use Rattle.std.specs.Prelude.{◌≡◌, ◌↔◌, ℕ, List, Contains, MatchOption};
    ghost use Rattle.hn_base.specs.declared.ids.NodeId.{NodeId};

    /// A part of node data.
    type Part;

    /// Node data say a part.
    ghost says: { List ℕ → Self.Part → Type 0 };

    /// This is made of a part of that node.
    ghost makes: { NodeId → Self.Part → Self → Type 0 };

    /// The parts that node data say. Never allocates.
    fn parts(body: &NodeData) -> &[Self::Part]
        ensures { (part : Self.Part) → Contains result.now part ↔ says body.now part };

    /// What is made of a part of a node, if anything is. Never allocates.
    fn from_part(node: NodeId, part: &Self::Part) -> Option<Self>
        ensures { MatchOption result ((x : Self) → ¬ makes node part.now x)
            (λ made. (x : Self) → makes node part.now x ↔ (made ≡ x)) };
}

/// Adds what parts of a node make.
fn add_of_parts<T: OfNode + Copy>(
    list: &mut Vec<T>,
    node: NodeId,
    parts: &[T::Part],
) -> Result<(), NoMemory>
    ensures { OnOk result ((x : T) → Contains list.new.items x
        ↔ (Contains list.old.items x ⊎ IsGivenByOne (T.makes node) parts.now x)) }
{
    for part in parts {
        match T::from_part(node, part) {
            Some(made) => list.push(made)?,
            None => {}
        }
    }
    Ok(())
}

/// Adds what a node gives, if it has an HNCP-Version.
fn add_of_node<T: OfNode + Copy>(list: &mut Vec<T>, node: &Entry) -> Result<(), NoMemory>
    ensures { OnOk result ((x : T) → Contains list.new.items x
        ↔ (Contains list.old.items x ⊎ IsOfNode T.says T.makes node.now x)) }
{
    if version(&node.body).is_none() {
        return Ok(());
    }
    add_of_parts(list, node.id, T::parts(&node.body))
}

/// What some nodes give.
fn of_nodes<T: OfNode + Copy>(alloc: Global, nodes: &[Entry]) -> Result<Vec<T>, NoMemory>
    ensures { IfOk result (λ list. (x : T) → Contains list.items x ↔ IsGivenByOne (IsOfNode T.says T.makes) nodes.now x) }
{
    let mut list = Vec::new(alloc);
    for node in nodes {
        add_of_node(&mut list, node)?;
    }
    Ok(list)
}

/// What the nodes that a router reaches, itself among them, say of one kind. A node without an HNCP-Version gives nothing.
///
/// # Errors
///
/// Out of memory.
pub fn from_nodes<T: OfNode + Copy>(alloc: Global, router: &Router) -> Result<Vec<T>, NoMemory>
    ensures { IfOk result (λ list. AreOfNodes T.says T.makes (seen_by router.now) list.items) }
{
    let nodes = router.nodes(alloc)?;
    of_nodes(alloc, nodes.as_slice())
}
