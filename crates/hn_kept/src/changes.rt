//! Which pair is the first one, in the order of pairs, that has another assignment in one list than in another.

ghost use Rattle.std.specs.Prelude.{◌≡◌, ◌↔◌, IsTrue, IfOk, IfSome};
ghost use Rattle.hn_kept.specs.Choosing.{earlier_ones, first_ones};

use hn_assign::{Assigned, Pair, Paired, same_assigned};
use hn_base::NoMemory;
use std::alloc::Global;

/// The assignments of the pairs before one.
fn earlier_ones(
    alloc: Global,
    pair: &Pair,
    assigned: &[Assigned],
) -> Result<Vec<Assigned>, NoMemory>
    ensures { IfOk result (λ earlier. earlier.items ≡ earlier_ones pair.now assigned.now) }
{
    Ok(
        assigned
            .iter()
            .copied()
            .filter(|c| c.pair() < *pair)
            .collect(alloc)?,
    )
}

/// The assignments of the pairs up to one.
fn first_ones(alloc: Global, pair: &Pair, assigned: &[Assigned]) -> Result<Vec<Assigned>, NoMemory>
    ensures { IfOk result (λ first. first.items ≡ first_ones pair.now assigned.now) }
{
    Ok(
        assigned
            .iter()
            .copied()
            .filter(|c| c.pair() <= *pair)
            .collect(alloc)?,
    )
}

/// Whether the pairs before one have the same assignments in both lists.
pub(crate) fn same_earlier(
    alloc: Global,
    pair: &Pair,
    a: &[Assigned],
    b: &[Assigned],
) -> Result<bool, NoMemory>
    ensures { IfOk result (λ same. IsTrue same ↔ (earlier_ones pair.now a.now ≡ earlier_ones pair.now b.now)) }
{
    let a = earlier_ones(alloc, pair, a)?;
    let b = earlier_ones(alloc, pair, b)?;
    Ok(same_assigned(a.as_slice(), b.as_slice()))
}

/// Whether the pairs up to one have.
fn same_first(alloc: Global, pair: &Pair, a: &[Assigned], b: &[Assigned]) -> Result<bool, NoMemory>
    ensures { IfOk result (λ same. IsTrue same ↔ (first_ones pair.now a.now ≡ first_ones pair.now b.now)) }
{
    let a = first_ones(alloc, pair, a)?;
    let b = first_ones(alloc, pair, b)?;
    Ok(same_assigned(a.as_slice(), b.as_slice()))
}

/// The pair at the first place where two lists differ.
fn at_difference(a: &[Assigned], b: &[Assigned]) -> Option<Pair> {
    for (mine, other) in a.iter().zip(b) {
        if *mine != *other {
            return Some(mine.pair());
        }
    }
    None
}

/// The first pair that has another assignment in one list than in another, where it is found. It need not be found.
pub(crate) fn first_changed(
    alloc: Global,
    a: &[Assigned],
    b: &[Assigned],
) -> Result<Option<Pair>, NoMemory>
    ensures earlier { IfOk result (λ found. IfSome found (λ pair. earlier_ones pair a.now ≡ earlier_ones pair b.now)) }
    ensures changed { IfOk result (λ found. IfSome found (λ pair. ¬ (first_ones pair a.now ≡ first_ones pair b.now))) }
{
    let Some(pair) = at_difference(a, b) else {
        return Ok(None);
    };
    if !same_earlier(alloc, &pair, a, b)? || same_first(alloc, &pair, a, b)? {
        return Ok(None);
    }
    Ok(Some(pair))
}
