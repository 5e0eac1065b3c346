ghost use Rattle.std.specs.Prelude.{◌≡◌, None};
ghost use Rattle.hn_assign.specs.Slot.{IsSlot};

use hn_pair::{Assigned, Backoff, Held, Pair};

/// What a pair has: its assignment and its backoff, where it has them.
#[derive(Clone, Copy)]
pub struct Slot {
    pub assigned: Option<Assigned>,
    pub backoff: Option<Backoff>,
}

/// What a pair has after its turn, and the random word that the turn took, where it took one.
#[derive(Clone, Copy)]
pub struct Turn {
    pub slot: Slot,
    pub word: Option<u32>,
}

impl Turn {
    /// A turn that takes no word.
    pub(crate) fn quiet(slot: Slot) -> Turn
        ensures { result ≡ record { slot = slot; word = None } }
    {
        Turn { slot, word: None }
    }
}

/// What a pair has. Never allocates.
pub(crate) fn slot_of(held: &Held, pair: &Pair) -> Slot
    ensures { IsSlot pair.now held.now result }
{
    Slot {
        assigned: held.assigned.find(pair),
        backoff: held.backoffs.find(pair),
    }
}
