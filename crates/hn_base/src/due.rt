//! When something is next due.

ghost use Rattle.std.specs.Prelude.{◌≡◌};
ghost use Rattle.hn_base.specs.Sooner.{IsSooner};

use crate::ids::Moment;

/// A moment, where it is after now and before `best`; else `best`. Never allocates.
pub fn sooner(now: Moment, best: Moment, moment: Moment) -> Moment
    ensures { IsSooner (λ m. m ≡ moment) now best result }
{
    if now < moment && moment < best {
        moment
    } else {
        best
    }
}
