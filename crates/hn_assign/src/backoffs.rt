ghost use Rattle.std.specs.Prelude.{◌≡◌, IfSome, OnOk};
ghost use Rattle.hn_base.specs.Ascending.{HasAt};
ghost use Rattle.hn_pair.specs.Pair.{Updates, backoff_pair};

use hn_base::NoMemory;
use hn_pair::{Backoff, Backoffs, Pair};

/// Gives a pair another backoff in place of the one that it has, or none.
pub(crate) fn change_backoff(
    backoffs: &mut Backoffs,
    pair: &Pair,
    old: &Option<Backoff>,
    new: &Option<Backoff>,
) -> Result<(), NoMemory>
    requires had { HasAt backoff_pair pair.now old.now backoffs.old }
    requires of_pair { IfSome new.now (λ b. backoff_pair b ≡ pair.now) }
    ensures { OnOk result (Updates backoff_pair pair.now new.now backoffs.old backoffs.new) }
{
    // The proof needs that the backoffs ascend.
    let _ascending = backoffs.as_slice();
    if old == new {
        return Ok(());
    }
    backoffs.set(pair, new)
}
