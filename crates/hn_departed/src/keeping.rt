//! How many departed prefixes are kept.

ghost use Rattle.std.specs.Prelude.{◌≡◌, ◌<◌, nat_le, length};
ghost use Rattle.std.specs.List.{list_any, remove};
ghost use Rattle.hn_departed.specs.Departed.{since, without_first, kept};

use crate::departures::Told;
use hn_base::Moment;

/// How many departed prefixes of an endpoint are kept at most.
const MOST: usize = 64;

/// The moment of departure.
fn since(told: &Told) -> Moment
    ensures { result ≡ since told.now }
{
    told.departed.unwrap_or(0)
}

/// Whether one of those departed no later than that.
fn is_any_no_later(told: &Told, rest: &[Told]) -> bool
    ensures { result ≡ list_any (λ u. nat_le (since u) (since told.now)) rest.now }
{
    let moment = since(told);
    rest.iter().any(|other| since(other) <= moment)
}

/// The place of the one that departed first; of those that did at one moment that of the last.
fn first_departed(queue: &[Told]) -> usize
    requires { 0 < length queue.now }
    ensures within { result < length queue.now }
    ensures first { without_first queue.now ≡ remove queue.now result }
{
    let mut place = 0;
    let mut rest = queue;
    'place: loop {
        let Some((told, after)) = rest.split_first() else {
            unreachable!()
        };
        if !is_any_no_later(told, after) {
            return place;
        }
        place += 1;
        rest = after;
    }
}

/// At most 64 stay: while there are more, the one goes that departed first.
pub(crate) fn keep_few(queue: &mut Vec<Told>)
    ensures { queue.new.items ≡ kept queue.old.items }
{
    while MOST < queue.len() {
        let place = first_departed(queue.as_slice());
        queue.remove(place);
    }
}
