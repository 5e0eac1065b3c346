ghost use Rattle.std.specs.Prelude.{◌≡◌, ◌↔◌, true, [], IsTrue, IfOk};
ghost use Rattle.hn_pair.specs.Pair.{IsAscending};
ghost use Rattle.hn_kept.specs.Choosing.{earlier_ones};
ghost use Rattle.hn_kept.specs.Preferred.{preferred_pair, word_of, is_of_pair, is_kept, is_anew, is_missed, without_pair, before_pair, after_pair, with_preferred};

use crate::changes::same_earlier;
use hn_assign::{Assigned, Pair, pairs_are_ordered};
use hn_base::{EpId, Moment, NoMemory};
use hn_prefix::Prefix;
use std::alloc::Global;
use std::marker::Model;

/// How many words there are.
const WORDS: u128 = 4_294_967_296;

/// A prefix that is preferred for a pair: for the link of an endpoint, inside a delegated prefix.
#[derive(Clone, Copy, PartialEq, Eq)]
pub struct Preferred {
    pub endpoint: EpId,
    pub delegated: Prefix,
    pub prefix: Prefix,
}

impl Preferred {
    /// The random word that names its place. Never allocates.
    pub(crate) fn word(&self) -> u32
        ensures { result ≡ word_of self.now }
    {
        let ahead = self.prefix.bits().saturating_sub(self.delegated.bits());
        let len = self.prefix.len();
        if len == 0 {
            0
        } else {
            ((ahead >> (128 - len)) % WORDS) as u32
        }
    }

    /// The pair. Never allocates.
    pub(crate) fn pair(&self) -> Pair
        ensures { result ≡ preferred_pair self.now }
    {
        Pair {
            delegated: self.delegated,
            endpoint: self.endpoint,
        }
    }

    /// Whether an assignment is of the pair.
    fn is_of_pair(&self, c: &Assigned) -> bool
        ensures { result ≡ is_of_pair self.now c.now }
    {
        c.endpoint == self.endpoint && c.delegated == self.delegated
    }

    /// Whether the pair has it.
    fn is_kept(&self, assigned: &[Assigned]) -> bool
        ensures { result ≡ is_kept assigned.now self.now }
    {
        assigned
            .iter()
            .any(|c| self.is_of_pair(c) && c.prefix == self.prefix)
    }

    /// Whether the router publishes one for the pair, from this moment on.
    fn is_anew(&self, now: Moment, assigned: &[Assigned]) -> bool
        ensures { result ≡ is_anew now assigned.now self.now }
    {
        assigned.iter().any(|c| self.is_of_pair(c) && (c.since == now && c.published.is_some()))
    }

    /// Whether it does so, and the pair does not have the one that is preferred.
    pub(crate) fn is_missed(&self, now: Moment, assigned: &[Assigned]) -> bool
        ensures { result ≡ is_missed now assigned.now self.now }
    {
        let kept = self.is_kept(assigned);
        !kept && self.is_anew(now, assigned)
    }

    /// Whether the pair has it with other assignments, while the pairs that come before have the same.
    pub(crate) fn is_served(
        &self,
        alloc: Global,
        own: &[Assigned],
        other: &[Assigned],
    ) -> Result<bool, NoMemory>
        ensures { IfOk result (λ served. IsTrue served ↔ (is_kept other.now self.now ≡ true) × (earlier_ones (preferred_pair self.now) other.now ≡ earlier_ones (preferred_pair self.now) own.now)) }
    {
        if !self.is_kept(other) {
            return Ok(false);
        }
        same_earlier(alloc, &self.pair(), other, own)
    }
}

/// Preferred prefixes, one for a pair, in the order of pairs. Contracts see the list.
#[derive(Drop)]
pub struct Preferences {
    items: Vec<Preferred>,
}

impl Model for Preferences {
    ghost use Rattle.std.specs.Prelude.{List};
    ghost use Rattle.hn_pair.specs.Pair.{IsAscending};
    ghost use Rattle.hn_kept.specs.declared.preferred.Preferred.{Preferred};
    ghost use Rattle.hn_kept.specs.Preferred.{preferred_pair};

    ghost Value = { List Preferred };

    ghost view = { λ p. p.items.items };

    ghost invariant = { λ p. IsAscending preferred_pair p.items.items };
}

impl Preferences {
    /// Nothing. Never allocates.
    pub(crate) fn new(alloc: Global) -> Preferences
        ensures { result ≡ [] }
    {
        Preferences {
            items: Vec::new(alloc),
        }
    }

    /// The list. Never allocates.
    pub(crate) fn as_slice(&self) -> &[Preferred]
        ensures value { result.now ≡ self.now }
        ensures ascends { IsAscending preferred_pair self.now }
    {
        self.items.as_slice()
    }

    /// The list where this one is preferred in place of what was for its pair.
    pub(crate) fn with(&self, alloc: Global, of: &Preferred) -> Result<Preferences, NoMemory>
        ensures { IfOk result (λ all. all ≡ with_preferred of.now self.now) }
    {
        pairs_are_ordered();
        let mut items = before_pair(alloc, of, self.items.as_slice())?;
        let after = after_pair(alloc, of, self.items.as_slice())?;
        items.push(*of)?;
        items.extend_from_slice(after.as_slice())?;
        Ok(Preferences { items })
    }
}

/// What is preferred for pairs before one.
fn before_pair(
    alloc: Global,
    of: &Preferred,
    preferred: &[Preferred],
) -> Result<Vec<Preferred>, NoMemory>
    ensures { IfOk result (λ before. before.items ≡ before_pair of.now preferred.now) }
{
    let pair = of.pair();
    Ok(
        preferred
            .iter()
            .copied()
            .filter(|p| p.pair() < pair)
            .collect(alloc)?,
    )
}

/// What is preferred for pairs after one.
fn after_pair(
    alloc: Global,
    of: &Preferred,
    preferred: &[Preferred],
) -> Result<Vec<Preferred>, NoMemory>
    ensures { IfOk result (λ after. after.items ≡ after_pair of.now preferred.now) }
{
    let pair = of.pair();
    Ok(
        preferred
            .iter()
            .copied()
            .filter(|p| pair < p.pair())
            .collect(alloc)?,
    )
}

/// What is preferred for other pairs.
pub(crate) fn without_pair(
    alloc: Global,
    of: &Preferred,
    preferred: &[Preferred],
) -> Result<Vec<Preferred>, NoMemory>
    ensures { IfOk result (λ others. others.items ≡ without_pair of.now preferred.now) }
{
    Ok(
        preferred
            .iter()
            .copied()
            .filter(|p| !(p.endpoint == of.endpoint && p.delegated == of.delegated))
            .collect(alloc)?,
    )
}
