//! Lists in strictly ascending order: each element once.

ghost use Rattle.std.specs.Prelude.{◌≡◌, ◌↔◌, List, IsTrue, Contains};
ghost use Rattle.std.specs.List.Sorted.{IsStrictlySortedBy};
ghost use Rattle.hn_base.specs.Ascending.{IsExact};

/// Brings the items into ascending order, each once. Never allocates.
pub fn sort_to_set<T: Ord + Drop>(items: &mut Vec<T>)
    requires exact { IsExact T.cmp }
    ensures ascending { IsStrictlySortedBy T.cmp items.new.items }
    ensures same { (x : T) → Contains items.new.items x ↔ Contains items.old.items x }
{
    items.sort_unstable();
    items.dedup();
}

/// Whether an item is among items in strictly ascending order, by binary search. Never allocates.
pub fn is_in_set<T: Ord>(set: &[T], x: &T) -> bool
    requires exact { IsExact T.cmp }
    requires ascending { IsStrictlySortedBy T.cmp set.now }
    ensures { IsTrue result ↔ Contains set.now x.now }
{
    set.binary_search(x).is_ok()
}

/// Lists in strictly ascending order with the same elements are equal.
pub fn ascending_is_unique<T: Ord>()
    ensures { (xs ys : List T) → IsStrictlySortedBy T.cmp xs → IsStrictlySortedBy T.cmp ys
        → ((x : T) → Contains xs x ↔ Contains ys x) → xs ≡ ys }
{}
