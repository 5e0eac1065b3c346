//! Laws of pairs. Each is the contract of a function that does nothing: call it to know its law.

ghost use Rattle.std.specs.Cmp.{IsTotalOrder};
ghost use Rattle.hn_base.specs.Ascending.{IsExact};
ghost use Rattle.hn_pair.specs.Laws.{KeptExists, UpdatedExists};
ghost use Rattle.hn_pair.specs.Pair.{assigned_pair, backoff_pair, pair_cmp};

/// The order of pairs is total, and only a pair itself is equal to it by this order.
pub fn pairs_are_ordered()
    ensures total { IsTotalOrder pair_cmp }
    ensures exact { IsExact pair_cmp }
{}

/// Of assignments and of backoffs, what is kept of wished pairs cannot be missing, nor can the list in which a pair has
/// something else, or nothing.
pub fn lists_exist()
    ensures kept { KeptExists assigned_pair × KeptExists backoff_pair }
    ensures updated { UpdatedExists assigned_pair × UpdatedExists backoff_pair }
{}
