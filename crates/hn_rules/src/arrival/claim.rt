ghost use Rattle.std.specs.Prelude.{◌≡◌, true, false, OnOk};
ghost use Rattle.hn_rules.specs.Rules.{Ran};
ghost use Rattle.hn_rules.specs.Claim.{is_taken, IsFirstFreeId, IsFirstClaim, IsSecondClaim, IsClaim};

use crate::running::Running;
use crate::state::State;
use hn_base::{NoMemory, NodeId};
use hn_io::Draw;
use std::alloc::Global;

/// How far the sequence number of a first claim is passed (RFC 7787, section 4.4).
const CLAIM_DISTANCE: u32 = 1_000;

impl State {
    /// Whether a router may not take this identifier.
    fn is_taken(&self, id: u32) -> bool
        ensures { result ≡ is_taken id self.now }
    {
        id == 0 || id == self.id.0 || self.table.get().get(NodeId(id)).is_some()
    }

    /// The first identifier of a word and those after it that the router may take.
    fn first_free(&self, word: u32) -> u32
        ensures { IsFirstFreeId self.now word result }
    {
        let table = self.table.get();
        let _kept = table.entries();
        let mut id = word;
        for _taken in 0..table.len() + 2 {
            if !self.is_taken(id) {
                return id;
            }
            id = id.wrapping_add(1);
        }
        id
    }
}

impl Running {
    /// The first claim.
    fn first_claim(&mut self, alloc: Global, number: u32) -> Result<(), NoMemory>
        requires { self.old.state.claimed ≡ false }
        ensures { OnOk result (IsFirstClaim number self.old self.new) }
    {
        self.state.claimed = true;
        self.publish(alloc, number.wrapping_add(CLAIM_DISTANCE))
    }

    /// The second claim.
    fn second_claim<D: Draw>(&mut self, alloc: Global, draw: &mut D) -> Result<(), NoMemory>
        requires { self.old.state.claimed ≡ true }
        ensures { OnOk result (Ran IsSecondClaim (D.words draw.old) (D.words draw.new) self.old self.new) }
    {
        let word = self.take(draw)?;
        self.state.id = NodeId(self.state.first_free(word));
        self.state.claimed = false;
        self.publish(alloc, 1)
    }

    /// Another node claims the own identifier (RFC 7787, section 4.4).
    pub(crate) fn claim<D: Draw>(
        &mut self,
        alloc: Global,
        number: u32,
        draw: &mut D,
    ) -> Result<(), NoMemory>
        ensures { OnOk result (Ran (IsClaim number) (D.words draw.old) (D.words draw.new) self.old self.new) }
    {
        if self.state.claimed {
            self.second_claim(alloc, draw)
        } else {
            self.first_claim(alloc, number)
        }
    }
}
