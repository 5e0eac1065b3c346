//! The nodes that a router knows: its own and those of its table.

ghost use Rattle.std.specs.Prelude.{◌≡◌, ◌++◌, ◌∷◌, [], ◌-◌, ◌≤◌, ◌^◌, filter, nat_lt, map, IfOk, OnOk};
ghost use Rattle.std.specs.List.{filter_map};
ghost use Rattle.std.specs.Option.{option_copied, option_map};
ghost use Rattle.hn_data.specs.View.{IsNetwork};
ghost use Rattle.hn_hash.specs.Network.{part_entry, part_text};
ghost use Rattle.hn_rules.specs.Nodes.{age_at, held_entry, own_entry, held_entries, nodes_of, entry_of, leaf_of, leaves_of};
ghost use Rattle.hn_rules.specs.Nodes.{own_leaf, part_of, parts_of, IsReach};

use crate::state::State;
use hn_base::{Bytes, Moment, NoMemory, NodeId, NodeIds};
use hn_data::Entry;
use hn_graph::reach;
use hn_hash::{Leaf, Part};
use hn_store::{OwnLeaf, Stored};
use std::alloc::Global;

/// How many bytes a part adds to the hashed text.
const ENTRY_BYTES: usize = 12;

/// Adds to the hashed text what a part adds to it: the sequence number and the hash of the node data (RFC 7787, section 4.1).
fn add_entry(text: &mut Vec<u8>, part: &Part) -> Result<(), NoMemory>
    ensures { OnOk result (text.new.items ≡ text.old.items ++ part_entry part.now) }
{
    text.extend_from_slice(&part.number.to_be_bytes())?;
    text.extend_from_slice(&part.hash)?;
    Ok(())
}

/// The age of held node data, in milliseconds.
pub(crate) fn age_at(now: Moment, stored: &Stored) -> u64
    requires { now ≤ 2 ^ 48 }
    ensures { result ≡ age_at now stored.now }
{
    u64::from(stored.age) + now.saturating_sub(stored.at)
}

impl State {
    /// The held node of an identifier.
    pub(crate) fn entry_with(&self, id: NodeId, stored: &Stored) -> Result<Entry, NoMemory>
        ensures { IfOk result (λ entry. entry ≡ held_entry self.now.moment (record { id = id; stored = stored.now })) }
    {
        Ok(Entry {
            id,
            number: stored.number,
            age: age_at(self.moment.get(), stored),
            body: stored.body.share()?,
        })
    }

    /// The own node.
    pub(crate) fn own_entry(&self) -> Result<Entry, NoMemory>
        ensures { IfOk result (λ entry. entry ≡ own_entry self.now) }
    {
        Ok(Entry {
            id: self.id,
            number: self.number,
            age: self.own_age(),
            body: self.own.get().body().share()?,
        })
    }

    /// Adds the held nodes with lower identifiers than the own one.
    fn add_lower(&self, nodes: &mut Vec<Entry>) -> Result<(), NoMemory>
        ensures { OnOk result (nodes.new.items ≡ nodes.old.items
            ++ filter (λ n. nat_lt n.id.0 self.now.id.0) (held_entries self.now)) }
    {
        for node in self.table.get().entries() {
            if node.id < self.id {
                nodes.push(self.entry_with(node.id, &node.stored)?)?;
            }
        }
        Ok(())
    }

    /// Adds the held nodes with greater identifiers than the own one.
    fn add_greater(&self, nodes: &mut Vec<Entry>) -> Result<(), NoMemory>
        ensures { OnOk result (nodes.new.items ≡ nodes.old.items
            ++ filter (λ n. nat_lt self.now.id.0 n.id.0) (held_entries self.now)) }
    {
        for node in self.table.get().entries() {
            if self.id < node.id {
                nodes.push(self.entry_with(node.id, &node.stored)?)?;
            }
        }
        Ok(())
    }

    /// The nodes in ascending order of their identifiers.
    fn nodes(&self, alloc: Global) -> Result<Vec<Entry>, NoMemory>
        ensures nodes { IfOk result (λ nodes. nodes.items ≡ nodes_of self.now) }
        ensures network { IfOk result (λ nodes. IsNetwork self.now.id.0 nodes.items) }
    {
        let _held = self.table.get().entries();
        let mut nodes = Vec::with_capacity(alloc, self.table.get().len() + 1)?;
        self.add_lower(&mut nodes)?;
        nodes.push(self.own_entry()?)?;
        self.add_greater(&mut nodes)?;
        Ok(nodes)
    }

    /// The reachable nodes (RFC 7787, section 4.6).
    pub(crate) fn reachable(&self, alloc: Global) -> Result<NodeIds, NoMemory>
        ensures { IfOk result (IsReach self.now) }
    {
        let nodes = self.nodes(alloc)?;
        reach(alloc, self.id, nodes.as_slice())
    }

    /// The own node, as the table compares it.
    pub(crate) fn own_leaf(&self) -> OwnLeaf
        ensures { result ≡ own_leaf self.now }
    {
        OwnLeaf {
            id: self.id,
            number: self.number,
            hash: self.own.get().hash(),
        }
    }

    /// A node's part of the network state. A held node is looked for from this place of the table on, which moves past it
    /// then.
    fn part(&self, id: NodeId, place: &mut usize) -> Option<Part>
        ensures { result ≡ part_of self.now id }
    {
        if id == self.id {
            return Some(Part {
                number: self.number,
                hash: self.own.get().hash(),
            });
        }
        match self.table.get().next_to(place, id) {
            Some(stored) => Some(stored.part()),
            None => None,
        }
    }

    /// The parts of the reachable nodes, one after the other, as they are hashed (RFC 7787, section 4.1).
    pub(crate) fn parts(&self, alloc: Global) -> Result<Vec<u8>, NoMemory>
        ensures { IfOk result (λ text. text.items ≡ part_text (parts_of self.now)) }
    {
        let count = self.reach.get().as_slice().len();
        let mut text = Vec::with_capacity(alloc, count.saturating_mul(ENTRY_BYTES))?;
        let mut place = 0;
        for id in self.reach.get().as_slice() {
            if let Some(part) = self.part(*id, &mut place) {
                add_entry(&mut text, &part)?;
            }
        }
        Ok(text)
    }

    /// The age of the own node data, in milliseconds.
    pub(crate) fn own_age(&self) -> u64
        ensures { result ≡ self.now.moment - self.now.own.born }
    {
        self.moment.get().saturating_sub(self.own.get().born())
    }

    /// A node's leaf.
    fn leaf(&self, alloc: Global, id: NodeId) -> Result<Option<Leaf>, NoMemory>
        ensures { IfOk result (λ leaf. leaf ≡ option_map leaf_of (entry_of self.now id)) }
    {
        if id == self.id {
            let own = self.own.get();
            return Ok(Some(Leaf {
                number: self.number,
                body: Bytes::copy_of(alloc, own.body().bytes())?,
            }));
        }
        match self.table.get().get(id) {
            Some(stored) => Ok(Some(Leaf {
                number: stored.number,
                body: Bytes::copy_of(alloc, stored.body.bytes())?,
            })),
            None => Ok(None),
        }
    }

    /// The leaves of the nodes that were reachable at the last refresh: their sequence numbers and node data, in ascending
    /// order of their identifiers (RFC 7787, section 4.1).
    ///
    /// # Errors
    ///
    /// Out of memory.
    pub fn leaves(&self, alloc: Global) -> Result<Vec<Leaf>, NoMemory>
        ensures { IfOk result (λ leaves. leaves.items ≡ leaves_of self.now) }
    {
        let mut leaves = Vec::new(alloc);
        for id in self.reach.get().as_slice() {
            let leaf = self.leaf(alloc, *id)?;
            if let Some(leaf) = leaf {
                leaves.push(leaf)?;
            }
        }
        Ok(leaves)
    }
}
