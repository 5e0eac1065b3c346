//! When something that is held is next due.

ghost use Rattle.hn_base.specs.Sooner.{IsSooner, IsOfElement};
ghost use Rattle.hn_pair.specs.Due.{IsBackoffDue, IsMarkDue, IsHeldDue};

use crate::assigned::Assigned;
use crate::assignments::APPLY_DELAY;
use crate::backoff::Backoff;
use crate::held::Held;
use hn_base::{Moment, sooner};

/// The first of the moments at which these backoffs are due, where it is after now and before `best`; else `best`.
fn first_due(backoffs: &[Backoff], now: Moment, best: Moment) -> Moment
    ensures { IsSooner (IsOfElement IsBackoffDue backoffs.now) now best result }
{
    let mut first = best;
    for b in backoffs {
        first = sooner(now, first, b.due);
    }
    first
}

/// The moment from which an assignment is to be marked applied, where that is after now and before `best`; else `best`.
fn next_mark(c: &Assigned, now: Moment, best: Moment) -> Moment
    ensures { IsSooner (IsMarkDue c.now) now best result }
{
    if c.applied {
        best
    } else {
        sooner(now, best, c.since.saturating_add(APPLY_DELAY))
    }
}

/// The first of these moments of assignments.
fn first_mark(assigned: &[Assigned], now: Moment, best: Moment) -> Moment
    ensures { IsSooner (IsOfElement IsMarkDue assigned.now) now best result }
{
    let mut first = best;
    for c in assigned {
        first = next_mark(c, now, first);
    }
    first
}

impl Held {
    /// The first moment after now and before `best` at which a backoff is due, or at which an assignment is old enough
    /// to be marked applied (RFC 7695, section 4.3); else `best`. Never allocates.
    pub fn next_due(&self, now: Moment, best: Moment) -> Moment
        ensures { IsSooner (IsHeldDue self.now) now best result }
    {
        let due = first_due(self.backoffs.as_slice(), now, best);
        first_mark(self.assigned.as_slice(), now, due)
    }
}
