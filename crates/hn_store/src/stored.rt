ghost use Rattle.std.specs.Prelude.{◌≡◌};
ghost use Rattle.hn_store.specs.Nodes.{stored_part};
ghost use Rattle.hn_store.specs.Acceptance.{plain_state, stored_renumbered};

use crate::state::State;
use hn_base::{Moment, NodeId};
use hn_data::NodeData;
use hn_hash::Part;
use std::alloc::AllocError;

/// What is held of another node (RFC 7787, section 7.2.3).
#[derive(Drop)]
pub struct Stored {
    /// The sequence number.
    pub number: u32,
    /// The hash of the node data.
    pub hash: [u8; 8],
    /// How old the data were when they arrived, in milliseconds.
    pub age: u32,
    /// When the number arrived.
    pub at: Moment,
    /// The node data.
    pub body: NodeData,
    /// Since when the node is not reachable; `None` while it is.
    pub lost: Option<Moment>,
}

/// A node that a table holds.
#[derive(Drop)]
pub struct HeldNode {
    pub id: NodeId,
    pub stored: Stored,
}

impl Stored {
    /// The sequence number and the hash of the node data, as they go into the network state hash. Never allocates.
    pub fn part(&self) -> Part
        ensures { result ≡ stored_part self.now }
    {
        Part {
            number: self.number,
            hash: self.hash,
        }
    }

    /// Gives it the number and the age of a state.
    pub(crate) fn renumber(&mut self, state: &State<'_>, now: Moment)
        ensures { self.new ≡ stored_renumbered (plain_state state.now) now self.old }
    {
        self.number = state.number;
        self.age = state.age;
        self.at = now;
    }
}

/// The clone shares the memory of the node data.
impl Clone for Stored {
    ghost is_clone = { λ stored copy. copy ≡ stored };

    /// # Errors
    ///
    /// Out of memory, as `AllocError`.
    fn clone(&self) -> Result<Stored, AllocError> {
        let Ok(body) = self.body.share() else {
            return Err(AllocError);
        };
        Ok(Stored {
            number: self.number,
            hash: self.hash,
            age: self.age,
            at: self.at,
            body,
            lost: self.lost,
        })
    }
}

/// The clone shares the memory of the node data.
impl Clone for HeldNode {
    ghost is_clone = { λ node copy. copy ≡ node };

    /// # Errors
    ///
    /// Out of memory, as `AllocError`.
    fn clone(&self) -> Result<HeldNode, AllocError> {
        Ok(HeldNode {
            id: self.id,
            stored: self.stored.clone()?,
        })
    }
}
