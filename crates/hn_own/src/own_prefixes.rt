//! A router's own delegated prefixes.

ghost use Rattle.std.specs.Prelude.{◌≡◌, ◌≤◌, ◌^◌, [], true, false, vec_len, vec_capacity, IfOk, OnOk, OnErr};
ghost use Rattle.hn_base.specs.Sooner.{IsSooner, IsOfElement};
ghost use Rattle.hn_own.specs.Due.{IsOwnPrefixEnd, IsOwnEnd};
ghost use Rattle.hn_own.specs.Lifetimes.{end_after, has_ended};
ghost use Rattle.hn_own.specs.OwnPrefixes.{AreOwnPrefixes, is_delegated, may_delegate, delegated_with, delegated_without, delegated_after, has_ended_one, own_prefix};

use crate::lifetimes::{end_after, has_ended};
use hn_base::{Exact, Moment, NoMemory, Sequence, sooner};
use hn_prefix::{Prefix, order_is_total};
use std::alloc::{AllocError, Global};
use std::marker::Model;

/// The most delegated prefixes of a router's own.
const MOST_PREFIXES: usize = 8;

/// A delegated prefix of a router's own, with the moments at which its lifetimes end; one that never ends has none (RFC
/// 7788, section 10.2.1).
#[derive(Clone, Copy, PartialEq, Eq)]
pub struct OwnPrefix {
    pub prefix: Prefix,
    pub valid_until: Option<Moment>,
    pub preferred_until: Option<Moment>,
}

impl OwnPrefix {
    /// A prefix whose lifetimes in seconds begin now; 4294967295 is one that never ends. Never allocates.
    pub fn new(now: Moment, prefix: Prefix, valid: u32, preferred: u32) -> OwnPrefix
        requires { now ≤ 2 ^ 48 }
        ensures { result ≡ own_prefix now prefix valid preferred }
    {
        OwnPrefix {
            prefix,
            valid_until: end_after(now, valid),
            preferred_until: end_after(now, preferred),
        }
    }
}

/// The moment at which the valid lifetime of a prefix ends, where that is after now and before `best`; else `best`.
fn next_of_prefix(own: &OwnPrefix, now: Moment, best: Moment) -> Moment
    ensures { IsSooner (IsOwnPrefixEnd own.now) now best result }
{
    match own.valid_until {
        Some(end) => sooner(now, best, end),
        None => best,
    }
}

/// Takes a prefix out of a list, and keeps the room.
fn leave(items: &mut Vec<OwnPrefix>, prefix: Prefix)
    ensures list { items.new.items ≡ delegated_without prefix items.old.items }
    ensures len { vec_len items.new ≤ vec_len items.old }
    ensures room { vec_capacity items.new ≡ vec_capacity items.old }
{
    items.retain(|own| own.prefix != prefix);
}

/// The first of these moments.
fn first_end(list: &[OwnPrefix], now: Moment, best: Moment) -> Moment
    ensures { IsSooner (IsOfElement IsOwnPrefixEnd list.now) now best result }
{
    let mut first = best;
    for own in list {
        first = next_of_prefix(own, now, first);
    }
    first
}

/// The delegated prefixes of a router's own, in strictly ascending order, at most 8. Contracts see the list.
#[derive(Drop)]
pub struct OwnPrefixes {
    items: Vec<OwnPrefix>,
}

impl Model for OwnPrefixes {
    ghost use Rattle.std.specs.Prelude.{List};
    ghost use Rattle.hn_own.specs.declared.own_prefixes.OwnPrefix.{OwnPrefix};
    ghost use Rattle.hn_own.specs.OwnPrefixes.{AreOwnPrefixes};

    ghost Value = { List OwnPrefix };

    ghost view = { λ p. p.items.items };

    ghost invariant = { λ p. AreOwnPrefixes p.items.items };
}

impl Clone for OwnPrefixes {
    ghost is_clone = { λ prefixes copy. copy ≡ prefixes };

    /// # Errors
    ///
    /// Out of memory, as `AllocError`.
    fn clone(&self) -> Result<OwnPrefixes, AllocError> {
        Ok(OwnPrefixes {
            items: self.items.clone()?,
        })
    }
}

impl Exact for OwnPrefixes {
    ghost exact = { λ prefixes copy same. same };
}

impl OwnPrefixes {
    /// No prefixes. Never allocates.
    pub fn new(alloc: Global) -> OwnPrefixes
        ensures { result ≡ [] }
    {
        OwnPrefixes {
            items: Vec::new(alloc),
        }
    }

    /// The prefixes in order. Never allocates.
    pub fn as_slice(&self) -> &[OwnPrefix]
        ensures prefixes { result.now ≡ self.now }
        ensures kept { AreOwnPrefixes self.now }
    {
        self.items.as_slice()
    }

    /// The prefixes in order, in new memory.
    ///
    /// # Errors
    ///
    /// Out of memory.
    pub fn copy(&self, alloc: Global) -> Result<Sequence<OwnPrefix>, NoMemory>
        ensures prefixes { IfOk result (λ copy. copy ≡ self.now) }
        ensures kept { AreOwnPrefixes self.now }
    {
        Sequence::copy_of(alloc, self.items.as_slice())
    }

    /// Whether a prefix is among them. Never allocates.
    pub fn has(&self, prefix: &Prefix) -> bool
        ensures { result ≡ is_delegated prefix.now self.now }
    {
        self.items.iter().any(|own| own.prefix == *prefix)
    }

    /// Whether a prefix may be added: it is among them, or they are fewer than 8. Never allocates.
    pub fn may_have(&self, prefix: &Prefix) -> bool
        ensures { result ≡ may_delegate prefix.now self.now }
    {
        self.has(prefix) || self.items.len() < MOST_PREFIXES
    }

    /// Adds a prefix at its place in the order, or puts it in place of the same one. It may be added, as `may_have`
    /// says.
    ///
    /// # Errors
    ///
    /// Out of memory; the prefixes are as before then.
    pub fn put(&mut self, own: OwnPrefix) -> Result<(), NoMemory>
        requires { may_delegate own.prefix self.old ≡ true }
        ensures put { OnOk result (self.new ≡ delegated_with own self.old) }
        ensures err { OnErr result (self.new ≡ self.old) }
    {
        order_is_total();
        let _ = &self.items;
        self.items.reserve(1)?;
        leave(&mut self.items, own.prefix);
        let place = self.items.partition_point(|p| p.prefix < own.prefix);
        Ok(self.items.insert(place, own)?)
    }

    /// Takes a prefix out. Never allocates.
    pub fn remove(&mut self, prefix: &Prefix)
        ensures { self.new ≡ delegated_without prefix.now self.old }
    {
        leave(&mut self.items, *prefix);
    }

    /// Whether the valid lifetime of some prefix has ended. Never allocates.
    pub fn needs_end(&self, now: Moment) -> bool
        ensures ended { result ≡ has_ended_one now self.now }
        ensures kept { result ≡ false → delegated_after now self.now ≡ self.now }
    {
        self.items.iter().any(|own| has_ended(now, own.valid_until))
    }

    /// Takes the prefixes out whose valid lifetime has ended. Never allocates.
    pub fn end(&mut self, now: Moment)
        ensures { self.new ≡ delegated_after now self.old }
    {
        self.items.retain(|own| !has_ended(now, own.valid_until));
    }

    /// The first moment after now and before `best` at which the valid lifetime of one of them ends; else `best`. Never
    /// allocates.
    pub fn next_end(&self, now: Moment, best: Moment) -> Moment
        ensures { IsSooner (IsOwnEnd self.now) now best result }
    {
        first_end(self.items.as_slice(), now, best)
    }
}
