//! What becomes of a delegated prefix.

ghost use Rattle.std.specs.Prelude.{◌≡◌, ◌↔◌, Contains, IsTrue};
ghost use Rattle.std.specs.List.{Any};
ghost use Rattle.hn_data.specs.Delegations.{HasDelegation};
ghost use Rattle.hn_data.specs.View.{plain_view};
ghost use Rattle.hn_deleg.specs.Used.{AreUsable};
ghost use Rattle.hn_table.specs.Fate.{IsFate, HasOneFate};

use crate::outer::{outermost_of, remaining};
use hn_data::{Delegation, Entry, View, version};
use hn_deleg::Delegated;
use hn_prefix::{Prefix, overlap_is_nesting};
use std::fmt;

/// Whether a delegated prefix is used, and if not, the first reason why.
#[derive(Drop)]
pub(crate) enum Fate {
    Used,
    /// The node has no HNCP-Version.
    NoVersion,
    /// Nothing is left of its valid lifetime.
    Ended,
    /// It is longer than 64 bits.
    Long,
    /// It is inside others, of which this is the outermost.
    Inside(Prefix),
    /// It comes after the 32 prefixes that are used.
    Past,
    /// The node is not reachable.
    Unreachable,
}

/// Whether it is used, and if not, why.
impl fmt::Display for Fate {
    ghost use Rattle.std.specs.Prelude.{Some};
    ghost use Rattle.hn_table.specs.FateText.{fate_words};

    ghost output = { λ fate. Some (fate_words fate) };

    fn fmt<W: fmt::Write>(&self, f: &mut fmt::Formatter<W>) -> fmt::Result {
        match self {
            Fate::Used => f.write_str("used=yes"),
            Fate::NoVersion => f.write_str("used=no why=no-version"),
            Fate::Ended => f.write_str("used=no why=ended"),
            Fate::Long => f.write_str("used=no why=long"),
            Fate::Inside(outer) => {
                let outer = outer.text();
                write!(f, "used=no why=inside outer={outer}")
            }
            Fate::Past => f.write_str("used=no why=past-32"),
            Fate::Unreachable => f.write_str("used=no why=unreachable"),
        }
    }
}

/// Whether a prefix is among those that are used.
fn is_used(used: &[Delegated], prefix: &Prefix) -> bool
    ensures { IsTrue result ↔ Any (λ one. one.prefix ≡ prefix.now) used.now }
{
    used.iter().any(|one| one.prefix == *prefix)
}

/// What becomes of a delegated prefix of a node that the router sees. Never allocates.
pub(crate) fn fate_of(view: &View<'_>, used: &[Delegated], node: &Entry, d: &Delegation) -> Fate
    requires usable { AreUsable (plain_view view.now) used.now }
    requires seen { Contains view.now.nodes.now node.now }
    requires said { HasDelegation node.now.body d.now }
    ensures { IsFate (plain_view view.entry.now) used.now node.now d.now result }
{
    if version(&node.body).is_none() {
        return Fate::NoVersion;
    }
    if remaining(node.age, d.valid) == 0 {
        return Fate::Ended;
    }
    if d.prefix.len() > 64 {
        return Fate::Long;
    }
    if is_used(used, &d.prefix) {
        return Fate::Used;
    }
    let outermost = outermost_of(view, &d.prefix);
    if outermost == d.prefix {
        Fate::Past
    } else {
        Fate::Inside(outermost)
    }
}

/// No delegated prefix has two fates: it is used, or there is one first reason why it is not.
pub fn one_fate()
    ensures { HasOneFate }
{
    overlap_is_nesting();
}
