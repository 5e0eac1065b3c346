ghost use Rattle.std.specs.Prelude.{◌≡◌, false, IsTrue, IfOk, OnOk, IfSome};
ghost use Rattle.hn_base.specs.Ascending.{HasAt};
ghost use Rattle.hn_assign.specs.Gathered.{AdvertiseSame, published_of_pair};
ghost use Rattle.hn_pair.specs.Pair.{Updates, assigned_pair};

use hn_base::NoMemory;
use hn_pair::{Assigned, Assignments, Pair};
use hn_prefix::Prefix;

/// What is published of a pair's assignment, if anything is: its priority and its prefix.
fn published(c: &Option<Assigned>) -> Option<(u8, Prefix)>
    ensures { result ≡ published_of_pair c.now }
{
    match c {
        None => None,
        Some(c) => c.published.map(|priority| (priority, c.prefix)),
    }
}

/// Whether the same is published of both.
fn publish_same(old: &Option<Assigned>, new: &Option<Assigned>) -> bool
    ensures { IsTrue result → published_of_pair old.now ≡ published_of_pair new.now }
{
    published(old) == published(new)
}

/// Gives a pair another assignment in place of the one that it has, or none: whether what is published of it changes.
pub(crate) fn change_assigned(
    assigned: &mut Assignments,
    pair: &Pair,
    old: &Option<Assigned>,
    new: &Option<Assigned>,
) -> Result<bool, NoMemory>
    requires had { HasAt assigned_pair pair.now old.now assigned.old }
    requires of_pair { IfSome new.now (λ c. assigned_pair c ≡ pair.now) }
    ensures updates { OnOk result (Updates assigned_pair pair.now new.now assigned.old assigned.new) }
    ensures unchanged { IfOk result (λ changed. changed ≡ false → AdvertiseSame assigned.old assigned.new) }
{
    // The proof needs that the assignments ascend.
    let _ascending = assigned.as_slice();
    if old == new {
        return Ok(false);
    }
    assigned.set(pair, new)?;
    Ok(!publish_same(old, new))
}
