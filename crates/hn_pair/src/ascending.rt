//! Lists that are strictly ascending by their pairs.

ghost use Rattle.std.specs.Prelude.{◌≡◌, ◌↔◌, IsTrue, IfSome, IfOk, OnOk, is_ok};
ghost use Rattle.hn_base.specs.Ascending.{HasAt};
ghost use Rattle.hn_pair.specs.Pair.{IsAscending, IsWished, IsPlaceOfPair, Updates, KeepsWished, wish_pair};

use crate::assigned::Wish;
use crate::pair::{Pair, Paired};
use hn_base::NoMemory;
use std::alloc::Global;

/// Where the item of a pair is, or else where it would be.
pub(crate) fn place_of<T: Paired>(items: &[T], pair: &Pair) -> Result<usize, usize>
    requires { IsAscending T.pair_of items.now }
    ensures { IsPlaceOfPair T.pair_of pair.now items.now result }
{
    items.binary_search_by_key(pair, |x| x.pair())
}

/// The same, where the place is likely to be this one.
fn place_near<T: Paired>(items: &[T], near: usize, pair: &Pair) -> Result<usize, usize>
    requires { IsAscending T.pair_of items.now }
    ensures { IsPlaceOfPair T.pair_of pair.now items.now result }
{
    if near < items.len() && items[near].pair() == *pair {
        return Ok(near);
    }
    place_of(items, pair)
}

/// The same, where the pair is likely to come after all others.
pub(crate) fn place_at_end<T: Paired>(items: &[T], pair: &Pair) -> Result<usize, usize>
    requires { IsAscending T.pair_of items.now }
    ensures { IsPlaceOfPair T.pair_of pair.now items.now result }
{
    match items.last() {
        Some(last) if last.pair() < *pair => Err(items.len()),
        _ => place_of(items, pair),
    }
}

/// What the items have for a pair. Never allocates.
pub(crate) fn find<T: Paired + Copy>(items: &[T], pair: &Pair) -> Option<T>
    requires { IsAscending T.pair_of items.now }
    ensures { HasAt T.pair_of pair.now result items.now }
{
    match place_of(items, pair) {
        Ok(place) => Some(items[place]),
        Err(_) => None,
    }
}

/// Gives a pair a new item, or none.
pub(crate) fn put<T: Paired + Copy>(
    items: &mut Vec<T>,
    pair: &Pair,
    new: Option<T>,
) -> Result<(), NoMemory>
    requires ascending { IsAscending T.pair_of items.old.items }
    requires of_pair { IfSome new (λ x. T.pair_of x ≡ pair.now) }
    ensures ascending { IsAscending T.pair_of items.new.items }
    ensures updates { OnOk result (Updates T.pair_of pair.now new items.old.items items.new.items) }
{
    match (place_of(items, pair), new) {
        (Ok(place), Some(x)) => items[place] = x,
        (Ok(place), None) => {
            items.remove(place);
        }
        (Err(place), Some(x)) => items.insert(place, x)?,
        (Err(_), None) => {}
    }
    Ok(())
}

/// Whether there is a wish for the pair, which is likely to be at a place. Never allocates.
pub(crate) fn is_wished(wishes: &[Wish], near: usize, pair: &Pair) -> bool
    requires { IsAscending wish_pair wishes.now }
    ensures { IsTrue result ↔ IsWished wishes.now pair.now }
{
    place_near(wishes, near, pair).is_ok()
}

/// A copy of the items that are for wished pairs.
pub(crate) fn wished<T: Paired + Copy>(
    alloc: Global,
    items: &[T],
    wishes: &[Wish],
) -> Result<Vec<T>, NoMemory>
    requires ascending { IsAscending T.pair_of items.now }
    requires wishes_ascending { IsAscending wish_pair wishes.now }
    ensures { IfOk result (λ kept. KeepsWished T.pair_of wishes.now items.now kept.items) }
{
    let mut kept = Vec::with_capacity(alloc, items.len())?;
    for x in items {
        if is_wished(wishes, kept.len(), &x.pair()) {
            kept.push(*x)?;
        }
    }
    Ok(kept)
}
