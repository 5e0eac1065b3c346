ghost use Rattle.std.specs.Prelude.{◌≡◌, ◌↔◌, ◌<◌, ◌≤◌, length, map, Contains, IsTrue, IfOk, OnOk, IfSome, IfNone};
ghost use Rattle.std.specs.List.Sorted.{IsNonDecreasingBy};
ghost use Rattle.hn_base.specs.Ascending.{HaveSame};
ghost use Rattle.hn_base.specs.Prefix.{PlainPrefix, IsInside, Overlaps};
ghost use Rattle.hn_data.specs.View.{plain_view, IsNetwork};
ghost use Rattle.hn_prefix.specs.Free.{IsFirstFree};
ghost use Rattle.hn_assign.specs.declared.advertised.Advertised.{Advertised};
ghost use Rattle.hn_assign.specs.Between.{AreBetween};
ghost use Rattle.hn_assign.specs.Best.{IsBestIfAny, IsValid, IsFreeIn, HasNoFree};
ghost use Rattle.hn_assign.specs.Gathered.{AreAdvertised};
ghost use Rattle.hn_assign.specs.Indexed.{IsFrontUpTo, short_of};

use crate::advertised::Advertised;
use crate::gathering::gather;
use crate::precedence::{best, valid};
use hn_base::{EpId, NoMemory, NodeId};
use hn_data::View;
use hn_pair::{Assigned, Held};
use hn_prefix::{Prefix, first_free, inside_is_range, sub_prefixes_are_all, within_is_not_shorter};
use std::alloc::Global;
use std::marker::Model;

/// The length of most prefixes of links. Shorter ones are few, and looked at one by one.
const ORDINARY: u8 = 64;

/// A list of at most so many is looked at plainly: to bring it into order costs more than it saves.
const FEW: usize = 64;

/// The advertised prefixes, in an index: of many, what is inside another prefix is one range. Contracts see their list.
#[derive(Drop)]
pub struct Index {
    /// In ascending order by their bits, if they are many.
    advertised: Vec<Advertised>,
    /// Those of them that are shorter than 64 bits.
    short: Vec<Advertised>,
    /// The same as `advertised`, without their keys.
    taken: Vec<Prefix>,
}

impl Model for Index {
    ghost use Rattle.std.specs.Prelude.{List};
    ghost use Rattle.hn_assign.specs.declared.advertised.Advertised.{Advertised};
    ghost use Rattle.hn_assign.specs.Indexed.{IsIndexed};

    ghost Value = { List Advertised };

    ghost view = { λ i. i.advertised.items };

    ghost invariant = { λ i. IsIndexed i.advertised.items i.short.items i.taken.items };
}

/// Brings them into ascending order by their bits.
fn order_by_bits(advertised: &mut Vec<Advertised>)
    ensures ascending { IsNonDecreasingBy (λ a. a.prefix.bits) advertised.new.items }
    ensures same { HaveSame advertised.new.items advertised.old.items }
{
    advertised.sort_unstable_by_key(|a| a.prefix.bits());
}

/// The same, only if they are many.
fn order_if_many(advertised: &mut Vec<Advertised>)
    ensures ascending { 64 < length advertised.new.items → IsNonDecreasingBy (λ a. a.prefix.bits) advertised.new.items }
    ensures same { HaveSame advertised.new.items advertised.old.items }
{
    if advertised.len() > FEW {
        order_by_bits(advertised);
    }
}

/// The same, for a list of which all but few stand in order: in time that is linear in their number.
pub(crate) fn merge_by_bits(advertised: &mut Vec<Advertised>) -> Result<(), NoMemory>
    ensures ascending { OnOk result (IsNonDecreasingBy (λ a. a.prefix.bits) advertised.new.items) }
    ensures same { OnOk result (HaveSame advertised.new.items advertised.old.items) }
{
    Ok(advertised.sort_by_key(|a| a.prefix.bits())?)
}

/// The same, only if they are many.
fn merge_if_many(advertised: &mut Vec<Advertised>) -> Result<(), NoMemory>
    ensures ascending { OnOk result (64 < length advertised.new.items → IsNonDecreasingBy (λ a. a.prefix.bits) advertised.new.items) }
    ensures same { OnOk result (HaveSame advertised.new.items advertised.old.items) }
{
    if advertised.len() > FEW {
        return merge_by_bits(advertised);
    }
    Ok(())
}

/// The first ones, before the first whose bits are above an address. They are few: each is looked at.
fn front_to(rest: &[Advertised], last: u128) -> &[Advertised]
    ensures { IsFrontUpTo rest.now last result.now }
{
    let past = rest.iter().position(|a| a.prefix.bits() > last);
    match past {
        Some(end) => &rest[..end],
        None => rest,
    }
}

/// Those that are shorter than 64 bits.
fn short_of(alloc: Global, advertised: &[Advertised]) -> Result<Vec<Advertised>, NoMemory>
    ensures { IfOk result (λ short. short.items ≡ short_of advertised.now) }
{
    let short = advertised
        .iter()
        .filter(|a| a.prefix.len() < ORDINARY)
        .copied();
    Ok(short.collect(alloc)?)
}

/// The prefixes, without their keys.
fn prefixes_of(alloc: Global, advertised: &[Advertised]) -> Result<Vec<Prefix>, NoMemory>
    ensures { IfOk result (λ taken. taken.items ≡ map (λ a. a.prefix) advertised.now) }
{
    Ok(advertised.iter().map(|a| a.prefix).collect(alloc)?)
}

impl Index {
    /// An index of these advertised prefixes. What it stands for has the same elements, in another order.
    ///
    /// # Errors
    ///
    /// Out of memory.
    pub fn of(alloc: Global, advertised: &[Advertised]) -> Result<Index, NoMemory>
        ensures { IfOk result (λ index. HaveSame index advertised.now) }
    {
        let copy = Vec::from_slice(alloc, advertised)?;
        Index::over(alloc, copy)
    }

    /// The same, in the memory of the list.
    fn over(alloc: Global, mut advertised: Vec<Advertised>) -> Result<Index, NoMemory>
        ensures { IfOk result (λ index. HaveSame index advertised.items) }
    {
        order_if_many(&mut advertised);
        Index::of_ordered(alloc, advertised)
    }

    /// The same, where all but few of the list stand in order.
    pub(crate) fn merged(alloc: Global, mut advertised: Vec<Advertised>) -> Result<Index, NoMemory>
        ensures { IfOk result (λ index. HaveSame index advertised.items) }
    {
        merge_if_many(&mut advertised)?;
        Index::of_ordered(alloc, advertised)
    }

    /// The same, where the list is in order, if it is long.
    fn of_ordered(alloc: Global, advertised: Vec<Advertised>) -> Result<Index, NoMemory>
        requires { 64 < length advertised.items → IsNonDecreasingBy (λ a. a.prefix.bits) advertised.items }
        ensures { IfOk result (λ index. index ≡ advertised.items) }
    {
        let short = short_of(alloc, &advertised)?;
        let taken = prefixes_of(alloc, &advertised)?;
        Ok(Index {
            advertised,
            short,
            taken,
        })
    }

    /// What a router with these assignments knows to be advertised.
    pub(crate) fn gather(alloc: Global, view: &View<'_>, held: &Held) -> Result<Index, NoMemory>
        requires { IsNetwork view.now.own.0 view.now.nodes.now }
        ensures { IfOk result (AreAdvertised (plain_view view.entry.now) held.now.assigned) }
    {
        let advertised = gather(alloc, view, held)?;
        Index::over(alloc, advertised.into_vec())
    }

    /// Whether they are many, so they are in order.
    pub(crate) fn is_ordered(&self) -> bool {
        self.advertised.len() > FEW
    }

    /// The advertised prefixes. Never allocates.
    pub fn as_slice(&self) -> &[Advertised]
        ensures { result.now ≡ self.now }
    {
        self.advertised.as_slice()
    }

    /// The places of those whose first address is inside a prefix: they stand from the first one on, and before the second.
    fn places_in(&self, outer: &Prefix) -> (usize, usize)
        ensures { AreBetween self.now outer.now result.0 result.1 }
    {
        if self.advertised.len() <= FEW {
            return (0, self.advertised.len());
        }
        inside_is_range(outer);
        let first = outer.bits();
        let last = outer.last_address();
        let start = self.advertised.partition_point(|a| a.prefix.bits() < first);
        let front = front_to(&self.advertised[start..], last);
        (start, start + front.len())
    }

    /// Some of them: at least those whose first address is inside a prefix.
    fn starting_in(&self, outer: &Prefix) -> &[Advertised]
        ensures part { (a : Advertised) → Contains result.now a → Contains self.now a }
        ensures all { (a : Advertised) → Contains self.now a → IsInside a.prefix.bits outer.now → Contains result.now a }
    {
        let (start, end) = self.places_in(outer);
        &self.advertised[start..end]
    }

    /// Some of their prefixes: at least those that overlap a prefix.
    fn taken_in(&self, outer: &Prefix) -> &[Prefix]
        requires { outer.now.len ≤ 64 }
        ensures part { (t : PlainPrefix) → Contains result.now t → Contains (map (λ a. a.prefix) self.now) t }
        ensures all { (a : Advertised) → Contains self.now a → Overlaps a.prefix outer.now → Contains result.now a.prefix }
    {
        if !self.short.is_empty() {
            return &self.taken;
        }
        let (start, end) = self.places_in(outer);
        &self.taken[start..end]
    }

    /// The best prefix inside a delegated prefix for the link of some endpoints, as `best` says. Never allocates.
    pub fn best(
        &self,
        own: NodeId,
        common: &[(NodeId, EpId)],
        delegated: &Prefix,
    ) -> Option<Advertised>
        ensures { IsBestIfAny self.now own.0 common.now delegated.now result }
    {
        best(self.starting_in(delegated), own, common, delegated)
    }

    /// Whether an assignment to the link of some endpoints is valid, as `valid` says. Never allocates.
    ///
    /// What overlaps its prefix starts inside it, or is shorter.
    pub fn valid(&self, own: NodeId, common: &[(NodeId, EpId)], c: &Assigned) -> bool
        ensures { IsTrue result ↔ IsValid self.now own.0 common.now c.now }
    {
        if c.prefix.len() > ORDINARY {
            return valid(&self.advertised, own, common, c);
        }
        valid(&self.short, own, common, c) && valid(self.starting_in(&c.prefix), own, common, c)
    }

    /// The first free prefix of a length, at most 64, inside another, in cyclic order from a place; `None` if and only
    /// if nothing is free. Nothing is where the other one is longer. Never allocates.
    pub fn first_free(&self, outer: &Prefix, start: u128, len: u8) -> Option<Prefix>
        requires { len ≤ 64 }
        ensures first { IfSome result (IsFirstFree outer.now start (map (λ a. a.prefix) self.now) len) }
        ensures free { IfSome result (IsFreeIn self.now outer.now len) }
        ensures none { IfNone result (HasNoFree self.now outer.now len) }
    {
        within_is_not_shorter();
        if outer.len() > len {
            return None;
        }
        sub_prefixes_are_all(outer, len);
        first_free(outer, start, self.taken_in(outer), len)
    }
}
