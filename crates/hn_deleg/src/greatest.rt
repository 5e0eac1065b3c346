//! The lifetimes of a prefix: the greatest of its announcements.

ghost use Rattle.std.specs.Prelude.{◌≡◌, All, Contains, IfOk};
ghost use Rattle.hn_deleg.specs.Steps.{HasLifetimesIn};
ghost use Rattle.hn_deleg.specs.Used.{prefixes_of};

use crate::delegated::Delegated;
use hn_base::NoMemory;
use hn_prefix::Prefix;
use std::alloc::Global;

/// A prefix of a list with the greatest of its lifetimes there, the preferred one cut to the valid one.
fn lifetimes(list: &[Delegated], prefix: &Prefix) -> Delegated
    requires { Contains (prefixes_of list.now) prefix.now }
    ensures prefix { result.prefix ≡ prefix.now }
    ensures lifetimes { HasLifetimesIn list.now result }
{
    let mut valid = 0;
    let mut preferred = 0;
    for one in list {
        if one.prefix == *prefix {
            valid = one.valid.max(valid);
            preferred = one.preferred.max(preferred);
        }
    }
    Delegated {
        prefix: *prefix,
        valid,
        preferred: preferred.min(valid),
    }
}

/// Prefixes of a list with their lifetimes. The work grows with the product of both numbers.
pub(crate) fn with_lifetimes(
    alloc: Global,
    list: &[Delegated],
    prefixes: &[Prefix],
) -> Result<Vec<Delegated>, NoMemory>
    requires { All (Contains (prefixes_of list.now)) prefixes.now }
    ensures prefixes { IfOk result (λ found. prefixes_of found.items ≡ prefixes.now) }
    ensures lifetimes { IfOk result (λ found. All (HasLifetimesIn list.now) found.items) }
{
    let mut found = Vec::with_capacity(alloc, prefixes.len())?;
    for prefix in prefixes {
        found.push(lifetimes(list, prefix))?;
    }
    Ok(found)
}
