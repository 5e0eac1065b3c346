//! How long the data of nodes are so young that paths lead on from their nodes.

ghost use Rattle.std.specs.Prelude.{◌-◌, ◌+◌, ◌^◌, ◌<◌, ℕ, All, IsTrue};
ghost use Rattle.hn_store.specs.Ages.{age_of};

use crate::table::Table;
use hn_base::Moment;

/// From this age on, in milliseconds, data are no longer young (RFC 7787, section 4.6).
const OLD: u64 = (1 << 32) - (1 << 15);

/// A moment before which data that came with an age at a moment are young.
pub(crate) fn age_undue_until(age: u32, at: Moment) -> Moment
    ensures { (now : ℕ) → now < result → age + (now - at) < 2 ^ 32 - 2 ^ 15 }
{
    let age = u64::from(age);
    if age < OLD {
        at.saturating_add(OLD - age)
    } else {
        0
    }
}

impl Table {
    /// Whether the data of each node are surely younger than 2^32 - 2^15 ms at a moment (RFC 7787, section 4.6). No
    /// node is looked at. `false` may come wherever: no clause says when. A caller that gets it looks at each node.
    /// Never allocates.
    pub fn are_ages_undue(&self, now: Moment) -> bool
        ensures { IsTrue result → All (λ node. age_of now node.stored < 2 ^ 32 - 2 ^ 15) self.now.entries }
    {
        now < self.young
    }
}
