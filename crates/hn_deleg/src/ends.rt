//! When announced lifetimes end.

ghost use Rattle.hn_base.specs.Sooner.{IsSooner, IsOfElement};
ghost use Rattle.hn_data.specs.View.{plain_view};
ghost use Rattle.hn_deleg.specs.Due.{IsEnd, IsDelegationEnd, IsEndIn, IsLifetimeEnd};

use crate::announcements::remaining;
use hn_base::{Moment, sooner};
use hn_data::{Delegation, Entry, View, version};

/// The moment at which a lifetime in seconds ends, where that is after now and before `best`; else `best`.
fn next_of_lifetime(now: Moment, age: u64, seconds: u32, best: Moment) -> Moment
    ensures { IsSooner (IsEnd now age seconds) now best result }
{
    if seconds == u32::MAX {
        best
    } else {
        sooner(now, best, now.saturating_add(remaining(age, seconds)))
    }
}

/// The first of the moments at which the two lifetimes of a delegation end.
fn next_of_delegation(now: Moment, age: u64, d: &Delegation, best: Moment) -> Moment
    ensures { IsSooner (IsDelegationEnd now age d.now) now best result }
{
    let valid = next_of_lifetime(now, age, d.valid, best);
    next_of_lifetime(now, age, d.preferred, valid)
}

/// The first of these moments of delegations.
fn next_of_delegations(now: Moment, age: u64, delegations: &[Delegation], best: Moment) -> Moment
    ensures { IsSooner (IsOfElement (IsDelegationEnd now age) delegations.now) now best result }
{
    let mut first = best;
    for d in delegations {
        first = next_of_delegation(now, age, d, first);
    }
    first
}

/// The first of these moments of a node, if it has an HNCP-Version.
fn next_of_node(now: Moment, node: &Entry, best: Moment) -> Moment
    ensures { IsSooner (IsEndIn now node.now) now best result }
{
    if version(&node.body).is_none() {
        return best;
    }
    next_of_delegations(now, node.age, node.body.delegations(), best)
}

/// The first moment after now and before `best` at which a lifetime of a delegated prefix ends that a reachable node
/// with an HNCP-Version announces (RFC 7788, section 10.2.1); else `best`. Each prefix counts, of any length and used
/// or not. Never allocates.
pub fn next_end(view: &View<'_>, best: Moment) -> Moment
    ensures { IsSooner (IsLifetimeEnd (plain_view view.entry.now)) view.entry.now.now best result }
{
    let mut first = best;
    for node in view.nodes {
        first = next_of_node(view.now, node, first);
    }
    first
}
