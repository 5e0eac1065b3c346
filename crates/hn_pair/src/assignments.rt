ghost use Rattle.std.specs.Prelude.{◌≡◌, map};
ghost use Rattle.hn_pair.specs.Marks.{marked_applied};

use crate::assigned::Assigned;
use crate::of_pairs::OfPairs;
use hn_base::Moment;

/// How long an assignment is kept before it is applied, in milliseconds: twice the flooding delay of 5 seconds
/// (RFC 7695, section 4.3; RFC 7788, sections 6.3.1 and 6.3.3).
pub(crate) const APPLY_DELAY: u64 = 10_000;

/// A router's assignments, strictly ascending by delegated prefix and endpoint. Contracts see their list.
pub type Assignments = OfPairs<Assigned>;

impl Assigned {
    /// Marks the assignment applied where it was kept long enough.
    fn mark(&mut self, now: Moment)
        ensures { self.new ≡ marked_applied now self.old }
    {
        if now.saturating_sub(self.since) >= APPLY_DELAY {
            self.applied = true;
        }
    }
}

/// Marks those applied that were kept long enough.
fn mark_all(items: &mut [Assigned], now: Moment)
    ensures { items.new ≡ map (marked_applied now) items.old }
{
    for c in items.iter_mut() {
        c.mark(now);
    }
}

impl OfPairs<Assigned> {
    /// Marks those applied that were kept long enough (RFC 7695, section 4.3). Never allocates.
    pub fn mark(&mut self, now: Moment)
        ensures { self.new ≡ map (marked_applied now) self.old }
    {
        mark_all(&mut self.items, now);
    }
}
