//! The prefixes that are inside no other.

ghost use Rattle.std.specs.Prelude.{◌≡◌, ◌↔◌, All, IfOk, IsTrue};
ghost use Rattle.std.specs.List.Sorted.{IsStrictlySortedBy};
ghost use Rattle.hn_base.specs.Prefix.{IsPrefix, prefix_cmp};
ghost use Rattle.hn_deleg.specs.Steps.{AreOutermost, IsCovered, IsReadyFor};
ghost use Rattle.hn_deleg.specs.Used.{prefixes_of};

use crate::delegated::Delegated;
use hn_base::NoMemory;
use hn_prefix::{Prefix, overlap_is_nesting, prefixes_are_ranges};
use std::alloc::Global;

/// The prefixes of a list, as they are.
pub(crate) fn prefixes(alloc: Global, list: &[Delegated]) -> Result<Vec<Prefix>, NoMemory>
    ensures { IfOk result (λ found. found.items ≡ prefixes_of list.now) }
{
    Ok(list.iter().map(|one| one.prefix).collect(alloc)?)
}

/// Whether a prefix is inside one of those kept before it: the last is the only one that can have it inside.
fn is_covered(kept: &[Prefix], p: &Prefix) -> bool
    requires { IsReadyFor kept.now p.now }
    ensures { IsTrue result ↔ IsCovered kept.now p.now }
{
    prefixes_are_ranges();
    overlap_is_nesting();
    match kept.last() {
        Some(last) => last.contains(p),
        None => false,
    }
}

/// Those of ascending prefixes that are inside no other.
pub(crate) fn outermost(alloc: Global, ascending: &[Prefix]) -> Result<Vec<Prefix>, NoMemory>
    requires ascending { IsStrictlySortedBy prefix_cmp ascending.now }
    requires valid { All IsPrefix ascending.now }
    ensures { IfOk result (λ kept. AreOutermost ascending.now kept.items) }
{
    prefixes_are_ranges();
    let mut kept = Vec::with_capacity(alloc, ascending.len())?;
    for p in ascending {
        if !is_covered(kept.as_slice(), p) {
            kept.push(*p)?;
        }
    }
    Ok(kept)
}
