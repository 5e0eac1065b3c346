ghost use Rattle.std.specs.Prelude.{◌≡◌, ◌⊎◌, length, map, [], IfOk, IfSome, OnOk};
ghost use Rattle.std.specs.Option.{option_copied};
ghost use Rattle.std.specs.List.Sorted.{IsStrictlySortedBy};
ghost use Rattle.hn_base.specs.NodeIds.{node_cmp};
ghost use Rattle.hn_store.specs.Nodes.{held, IsTable, IsIntact};

use crate::place::{near, place_of};
use crate::stored::{HeldNode, Stored};
use hn_base::{Exact, Moment, NoMemory, NodeId, NodeIds};
use std::alloc::{AllocError, Global};
use std::marker::Model;

/// How many other nodes a table holds at most.
pub const LIMIT: usize = 256;

/// How many other nodes the table of a router of a larger home holds at most.
pub const LARGE_LIMIT: usize = 1024;

/// The other nodes that a router holds, in ascending order of their identifiers, at most 256 or 1,024. Their data have
/// at most 60,000 bytes each, and the hash that is held of each is that of its data.
///
/// A node is found in time that grows with the logarithm of the number of nodes.
#[derive(Drop)]
pub struct Table {
    limit: usize,
    /// Before this moment the data of each node are young.
    pub(crate) young: Moment,
    pub(crate) nodes: Vec<HeldNode>,
}

impl Model for Table {
    ghost use Rattle.hn_store.specs.Nodes.{Nodes, IsTable};
    ghost use Rattle.hn_store.specs.Ages.{AreAgesUndueBefore};

    ghost Value = { Nodes };

    ghost view = { λ t. record { limit = t.limit; entries = t.nodes.items } };

    ghost invariant = { λ t. IsTable (record { limit = t.limit; entries = t.nodes.items }) × AreAgesUndueBefore t.young t.nodes.items };
}

/// The identifiers of nodes.
fn ids_of(alloc: Global, nodes: &[HeldNode]) -> Result<Vec<NodeId>, NoMemory>
    ensures { IfOk result (λ ids. ids.items ≡ map (λ node. node.id) nodes.now) }
{
    Ok(nodes.iter().map(|node| node.id).collect(alloc)?)
}

impl Table {
    /// A table of at most 256 nodes that holds none. Never allocates.
    pub fn new(alloc: Global) -> Table
        ensures { result ≡ record { limit = 256; entries = [] } }
    {
        Table::sized(alloc, LIMIT)
    }

    /// A table of at most this many nodes, 256 or 1,024, that holds none. Never allocates.
    pub fn sized(alloc: Global, limit: usize) -> Table
        requires { (limit ≡ 256) ⊎ (limit ≡ 1024) }
        ensures { result ≡ record { limit = limit; entries = [] } }
    {
        Table {
            limit,
            young: Moment::MAX,
            nodes: Vec::new(alloc),
        }
    }

    /// How many nodes it holds. Never allocates.
    pub fn len(&self) -> usize
        ensures { result ≡ length self.now.entries }
    {
        self.nodes.len()
    }

    /// How many nodes it may hold. Never allocates.
    pub fn limit(&self) -> usize
        ensures { result ≡ self.now.limit }
    {
        self.limit
    }

    /// The nodes in ascending order of their identifiers. Never allocates.
    pub fn entries(&self) -> &[HeldNode]
        ensures entries { result.now ≡ self.now.entries }
        ensures valid { IsTable self.now }
    {
        self.nodes.as_slice()
    }

    /// What it holds of a node; `None` if and only if the node is not held. Never allocates.
    pub fn get(&self, id: NodeId) -> Option<&Stored>
        ensures held { option_copied result ≡ held self.now.entries id.0 }
        ensures intact { IfSome result (λ stored. IsIntact stored.now) }
    {
        match place_of(&self.nodes, id) {
            Ok(place) => Some(&self.nodes[place].stored),
            Err(_) => None,
        }
    }

    /// What it holds of a node, which is looked for at a place first. The place moves past the node where it is found.
    /// `None` if and only if the node is not held. Where the nodes of a table are looked for in ascending order from
    /// place 0 on, most are found at once. Never allocates.
    pub fn next_to(&self, place: &mut usize, id: NodeId) -> Option<&Stored>
        ensures held { option_copied result ≡ held self.now.entries id.0 }
        ensures intact { IfSome result (λ stored. IsIntact stored.now) }
    {
        match near(&self.nodes, *place, id) {
            Some(at) => {
                *place = at + 1;
                Some(&self.nodes[at].stored)
            }
            None => None,
        }
    }

    /// The identifiers of the nodes, in ascending order.
    ///
    /// # Errors
    ///
    /// Out of memory.
    pub fn ids(&self, alloc: Global) -> Result<NodeIds, NoMemory>
        ensures ids { IfOk result (λ ids. ids ≡ map (λ node. node.id) self.now.entries) }
        ensures ascending { IfOk result (IsStrictlySortedBy node_cmp) }
    {
        let ids = ids_of(alloc, &self.nodes)?;
        Ok(NodeIds::from(ids))
    }

    /// The same table. The copy shares the memory of the node data.
    ///
    /// # Errors
    ///
    /// Out of memory.
    pub fn copy(&self) -> Result<Table, NoMemory>
        ensures { IfOk result (λ copy. copy ≡ self.now) }
    {
        Ok(self.clone()?)
    }
}

impl Clone for Table {
    ghost is_clone = { λ table copy. copy ≡ table };

    /// The clone shares the memory of the node data.
    ///
    /// # Errors
    ///
    /// Out of memory, as `AllocError`.
    fn clone(&self) -> Result<Table, AllocError> {
        Ok(Table {
            limit: self.limit,
            young: self.young,
            nodes: self.nodes.clone()?,
        })
    }
}

impl Exact for Table {
    ghost exact = { λ table copy same. same };
}
