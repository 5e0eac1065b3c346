//! The search for candidates that have a prefix inside.

ghost use Rattle.std.specs.Prelude.{◌≡◌, true, false, Contains, IfNone, IfSome};
ghost use Rattle.hn_base.specs.Prefix.{PlainPrefix, IsWithin};
ghost use Rattle.hn_data.specs.View.{plain_view};
ghost use Rattle.hn_data.specs.declared.said.Delegation.{Delegation as ADelegation};
ghost use Rattle.hn_deleg.specs.Live.{remaining, IsAnnouncedPrefix};
ghost use Rattle.hn_deleg.specs.Used.{IsOutermost};
ghost use Rattle.hn_table.specs.Outer.{IsOuter, IsNoOuter, IsOuterAmong, IsOuterAt, HasNoOuter, IsOuterCandidate};

use hn_data::{Delegation, Entry, View, version};
use hn_prefix::{Prefix, prefixes_are_ranges, within_is_not_shorter};

/// What remains of a lifetime in seconds at this age of the data, in milliseconds; one of 4294967295 s never ends.
pub(crate) fn remaining(age: u64, seconds: u32) -> u64
    ensures { result ≡ remaining age seconds }
{
    if seconds == u32::MAX {
        u64::MAX
    } else {
        (1000 * u64::from(seconds)).saturating_sub(age)
    }
}

/// Whether a delegation, at this age of the data, is live, of at most 64 bits, and another one that has the prefix inside.
fn is_outer(age: u64, d: &Delegation, prefix: &Prefix) -> bool
    ensures yes { result ≡ true → IsOuter age prefix.now d.now }
    ensures no { result ≡ false → IsNoOuter age prefix.now d.now }
{
    d.prefix.len() <= 64
        && remaining(age, d.valid) > 0
        && d.prefix.contains(prefix)
        && d.prefix != *prefix
}

/// The first of the delegations of which that is so.
fn outer_among(age: u64, delegations: &[Delegation], prefix: &Prefix) -> Option<Prefix>
    ensures found { IfSome result (IsOuterAmong age delegations.now prefix.now) }
    ensures none { IfNone result ((d : ADelegation) → Contains delegations.now d → IsNoOuter age prefix.now d) }
{
    for d in delegations {
        if is_outer(age, d, prefix) {
            return Some(d.prefix);
        }
    }
    None
}

/// The first of the delegations of a node of which that is so, if the node has an HNCP-Version.
fn outer_at(node: &Entry, prefix: &Prefix) -> Option<Prefix>
    ensures found { IfSome result (IsOuterAt node.now prefix.now) }
    ensures none { IfNone result (HasNoOuter prefix.now node.now) }
{
    if version(&node.body).is_none() {
        return None;
    }
    outer_among(node.age, node.body.delegations(), prefix)
}

/// Another candidate that has the prefix inside, of the first node that has one.
fn outer_of(view: &View<'_>, prefix: &Prefix) -> Option<Prefix>
    ensures found { IfSome result (IsOuterCandidate (plain_view view.entry.now) prefix.now) }
    ensures none { IfNone result ((q : PlainPrefix) → IsAnnouncedPrefix (plain_view view.entry.now) q → IsWithin prefix.now q → q ≡ prefix.now) }
{
    for node in view.nodes {
        if let Some(outer) = outer_at(node, prefix) {
            return Some(outer);
        }
    }
    None
}

/// The outermost candidate that has a candidate inside, which is that one itself if no other has it. Never allocates.
pub(crate) fn outermost_of(view: &View<'_>, prefix: &Prefix) -> Prefix
    requires { IsAnnouncedPrefix (plain_view view.now) prefix.now }
    ensures outermost { IsOutermost (plain_view view.entry.now) result }
    ensures inside { IsWithin prefix.now result }
{
    prefixes_are_ranges();
    within_is_not_shorter();
    // Each length tells that this is a prefix, so the lengths fall.
    let _ = prefix.len();
    let mut outermost = *prefix;
    while let Some(outer) = outer_of(view, &outermost) {
        let _ = outer.len();
        outermost = outer;
    }
    outermost
}
