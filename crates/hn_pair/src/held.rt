ghost use Rattle.std.specs.Prelude.{◌≡◌, [], IfOk};

use crate::assignments::Assignments;
use crate::backoff::Backoffs;
use hn_base::NoMemory;
use std::alloc::Global;

/// What a router holds for its pairs.
#[derive(Drop)]
pub struct Held {
    pub assigned: Assignments,
    pub backoffs: Backoffs,
}

impl Held {
    /// Nothing. Never allocates.
    pub fn new(alloc: Global) -> Held
        ensures assigned { result.assigned ≡ [] }
        ensures backoffs { result.backoffs ≡ [] }
    {
        Held {
            assigned: Assignments::new(alloc),
            backoffs: Backoffs::new(alloc),
        }
    }

    /// The same, in new memory.
    ///
    /// # Errors
    ///
    /// Out of memory.
    pub fn copy(&self, alloc: Global) -> Result<Held, NoMemory>
        ensures { IfOk result (λ copy. copy ≡ self.now) }
    {
        Ok(Held {
            assigned: self.assigned.copy(alloc)?,
            backoffs: self.backoffs.copy(alloc)?,
        })
    }
}
