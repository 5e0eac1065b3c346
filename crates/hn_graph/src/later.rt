//! Reachability while time passes.

ghost use Rattle.hn_base.specs.Sooner.{IsSooner};
ghost use Rattle.hn_graph.specs.Later.{IsAgeLimit};

use crate::search::AGE_LIMIT;
use hn_base::{Moment, sooner};
use hn_data::Entry;

/// The first moment after now and before `best` at which the data of one of these nodes come to the age from which no
/// path leads on; else `best`. Never allocates.
pub fn next_age_limit(nodes: &[Entry], now: Moment, best: Moment) -> Moment
    ensures { IsSooner (IsAgeLimit nodes.now now) now best result }
{
    let mut first = best;
    for node in nodes {
        let left = AGE_LIMIT.saturating_sub(node.age);
        first = sooner(now, first, now.saturating_add(left));
    }
    first
}
