ghost use Rattle.std.specs.Prelude.{◌≡◌, ◌↔◌, ℕ, ◌+◌, ◌-◌, ◌^◌, ◌<◌, ◌≤◌, length, IfSome, IfNone, IsNone};
ghost use Rattle.hn_base.specs.Prefix.{IsWithin};
ghost use Rattle.hn_prefix.specs.Free.{sub_prefix, sub_prefix_count, next_place, OverlapsAt, IsFree, IsFull, IsFirstFree};

use crate::prefix::Prefix;

/// The first prefix of this length inside `outer` that overlaps none of `taken`, or `None` if and only if each one
/// overlaps a taken one. They are tried in cyclic order from the place `start` modulo their number, where the lowest
/// has place 0. Each taken prefix is jumped past at most twice. Each search for the next one begins at the last one. So
/// where `taken` is in ascending order, the taken prefixes are gone over a few times in all. Never allocates.
pub fn first_free(outer: &Prefix, start: u128, taken: &[Prefix], len: u8) -> Option<Prefix>
    requires not_shorter { outer.now.len ≤ len }
    requires len_in_range { len ≤ 64 }
    ensures first { IfSome result (IsFirstFree outer.now start taken.now len) }
    ensures inside { IfSome result (λ found. IsWithin found outer.now) }
    ensures none { IsNone result ↔ IsFull outer.now taken.now len }
{
    let count = outer.sub_prefix_count(len);
    let first = start % count;
    let mut ahead = 0;
    let mut from = 0;
    while ahead < count {
        let place = (first + ahead) % count;
        let candidate = outer.sub_prefix(len, place);
        let Some(at) = overlapping(taken, from, &candidate) else {
            return Some(candidate);
        };
        ahead += next_place(outer, taken[at].last_address(), len) - place;
        from = at;
    }
    None
}

/// The place of the first of these prefixes that overlaps another.
fn first_overlapping(taken: &[Prefix], p: &Prefix) -> Option<usize>
    ensures found { IfSome result (OverlapsAt taken.now p.now) }
    ensures none { IfNone result (IsFree taken.now p.now) }
{
    taken.iter().position(|t| t.overlaps(p))
}

/// The place of a prefix that overlaps another: the first one from a place on, or else the first one of all.
fn overlapping(taken: &[Prefix], from: usize, p: &Prefix) -> Option<usize>
    requires { from ≤ length taken.now }
    ensures found { IfSome result (OverlapsAt taken.now p.now) }
    ensures none { IfNone result (IsFree taken.now p.now) }
{
    let (before, after) = taken.split_at(from);
    match first_overlapping(after, p) {
        Some(at) => Some(from + at),
        None => first_overlapping(before, p),
    }
}

/// The place after that of the sub-prefix with this address inside, and at most their number.
fn next_place(outer: &Prefix, address: u128, len: u8) -> u128
    requires not_shorter { outer.now.len ≤ len }
    requires len_in_range { len ≤ 64 }
    requires not_below { outer.now.bits ≤ address }
    ensures { result ≡ next_place outer.now len address }
{
    (outer.place_of(address, len) + 1).min(outer.sub_prefix_count(len))
}
