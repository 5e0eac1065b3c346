ghost use Rattle.std.specs.Prelude.{◌≡◌, IfOk};

use crate::node_data::NodeData;
use hn_base::{Moment, NoMemory, NodeId};

/// A node as a router sees it: its identifier, its sequence number, the age of its data in milliseconds, and its data
/// (RFC 7787, section 7.2.3).
#[derive(Drop)]
pub struct Entry {
    pub id: NodeId,
    pub number: u32,
    pub age: u64,
    pub body: NodeData,
}

impl Entry {
    /// The same entry, which shares the memory of its data.
    ///
    /// # Errors
    ///
    /// Out of memory.
    pub fn copy(&self) -> Result<Entry, NoMemory>
        ensures { IfOk result (λ copy. copy ≡ self.now) }
    {
        Ok(Entry {
            id: self.id,
            number: self.number,
            age: self.age,
            body: self.body.share()?,
        })
    }
}

/// The reachable nodes as a router sees them at a moment, in strictly ascending order of their identifiers. The
/// router's own node is among them.
#[derive(Clone, Copy)]
pub struct View<'a> {
    pub own: NodeId,
    pub now: Moment,
    pub nodes: &'a [Entry],
}
