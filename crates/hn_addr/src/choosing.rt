//! Choosing the addresses, one assignment after the other.

ghost use Rattle.std.specs.Prelude.{◌≡◌, ◌^◌, ◌<◌, ◌-◌, [], ◌∷◌, ◌++◌, ℕ, filter, IsTrue, IfOk, OnOk, MatchOption};
ghost use Rattle.std.specs.Ordering.{nat_cmp};
ghost use Rattle.std.specs.List.Sorted.{IsStrictlySortedBy};
ghost use Rattle.hn_base.specs.Words.{Took};
ghost use Rattle.hn_rules.specs.Seen.{seen_by};
ghost use Rattle.hn_addr.specs.Addresses.{Stays, adding, none_chosen, counts, IsFirstFit, KeepsOwn};
ghost use Rattle.hn_addr.specs.Addresses.{DrawsOne, IsChosenFor, IsChoosing};
ghost use Rattle.hn_addr.specs.Numbers.{IsFirstFrom};
ghost use Rattle.hn_addr.specs.Others.{AreOthers};
ghost use Rattle.hn_addr.specs.Choosings.{Draws, IsFirstAround};

use crate::fitting::{address_of, first_from};
use crate::others::Others;
use crate::stays::stays;
use hn_assign::Assigned;
use hn_base::{EpId, NoMemory, Sequence, Words};
use hn_io::{Draw, words_join};
use hn_router::Router;
use std::alloc::Global;

/// The greatest number that an address may have past the bits of its prefix.
const GREATEST: u32 = 65_535;

/// The choosing so far: the addresses in the order in which they came, each with its endpoint, and the words that were
/// taken.
#[derive(Drop)]
pub(crate) struct Choosing {
    pub list: Sequence<(EpId, u128)>,
    pub words: Words,
}

/// The next word.
fn take<D: Draw>(draw: &mut D) -> u32
    ensures { Took (D.words draw.old) (result ∷ []) (D.words draw.new) }
{
    draw.next()
}

/// The first number that makes a free address inside the prefix of an assignment, in cyclic order from the one that a word
/// says. `lowest` is the first from 1 on.
fn number_of(others: &Others, list: &[(EpId, u128)], c: &Assigned, lowest: u32, word: u32) -> u32
    requires ascending { IsStrictlySortedBy nat_cmp others.now.addresses.items }
    requires lowest { IsFirstFrom others.now list.now c.now.prefix 1 lowest }
    ensures { IsFirstAround others.now list.now c.now.prefix word result }
{
    first_from(others, list, &c.prefix, 1 + word % GREATEST).unwrap_or(lowest)
}

impl Choosing {
    /// Before the first assignment.
    fn new(alloc: Global) -> Choosing
        ensures { result ≡ none_chosen }
    {
        Choosing {
            list: Sequence::new(alloc),
            words: Words::new(alloc),
        }
    }

    /// One more address comes.
    fn add(&mut self, endpoint: EpId, address: u128) -> Result<(), NoMemory>
        ensures { OnOk result (self.new ≡ adding endpoint address [] self.old) }
    {
        self.list.push((endpoint, address))
    }

    /// One more address comes, with a word.
    fn add_drawn(&mut self, endpoint: EpId, address: u128, word: u32) -> Result<(), NoMemory>
        ensures { OnOk result (self.new ≡ adding endpoint address (word ∷ []) self.old) }
    {
        self.words.push(word)?;
        self.list.push((endpoint, address))
    }

    /// The address comes with the first number that fits, from the start that a word says. `lowest` is the first from 1 on.
    fn draw_one<D: Draw>(
        &mut self,
        router: &Router,
        others: &Others,
        c: &Assigned,
        lowest: u32,
        draw: &mut D,
    ) -> Result<(), NoMemory>
        requires others { AreOthers (seen_by router.now) others.now }
        requires lowest { IsFirstFrom others.now self.old.list c.now.prefix 1 lowest }
        ensures drawn { OnOk result (DrawsOne (seen_by router.now) c.now self.old self.new) }
        ensures drew { OnOk result (Draws (D.words draw.old) self.old.words (D.words draw.new) self.new.words) }
    {
        let word = take(draw);
        let k = number_of(others, self.list.as_slice(), c, lowest, word);
        self.add_drawn(c.endpoint, address_of(&c.prefix, k), word)
    }

    /// What comes of one assignment.
    fn step<D: Draw>(
        &mut self,
        router: &Router,
        others: &Others,
        c: &Assigned,
        draw: &mut D,
    ) -> Result<(), NoMemory>
        requires { AreOthers (seen_by router.now) others.now }
        ensures chosen { OnOk result (IsChosenFor (seen_by router.now) router.now.addresses c.now self.old self.new) }
        ensures drew { OnOk result (Draws (D.words draw.old) self.old.words (D.words draw.new) self.new.words) }
    {
        if let Some(own) = stays(router, others, self.list.as_slice(), c) {
            return self.add(c.endpoint, own);
        }
        match first_from(others, self.list.as_slice(), &c.prefix, 1) {
            Some(lowest) => self.draw_one(router, others, c, lowest, draw),
            None => Ok(()),
        }
    }
}

/// Whether an assignment counts: it is applied, and its endpoint is attached.
fn counts(router: &Router, c: &Assigned) -> bool
    ensures { result ≡ counts router.now c.now }
{
    c.applied && router.attached(c.endpoint)
}

/// The assignments that count, in ascending order of delegated prefix and endpoint.
fn counting(alloc: Global, router: &Router) -> Result<Vec<Assigned>, NoMemory>
    ensures { IfOk result (λ list. list.items ≡ filter (counts router.now) router.now.held.assigned) }
{
    let assigned = router.held().assigned.as_slice();
    Ok(
        assigned
            .iter()
            .filter(|c| counts(router, c))
            .copied()
            .collect(alloc)?,
    )
}

/// The addresses that a router would have next, in the order in which they come, and the words that choosing them takes.
pub(crate) fn choose_all<D: Draw>(
    alloc: Global,
    router: &Router,
    draw: &mut D,
) -> Result<Choosing, NoMemory>
    ensures chosen { IfOk result (IsChoosing router.now) }
    ensures drew { IfOk result (λ p. Took (D.words draw.old) p.words (D.words draw.new)) }
{
    words_join();
    let others = Others::of(alloc, router)?;
    let list = counting(alloc, router)?;
    let mut choosing = Choosing::new(alloc);
    for c in list.as_slice() {
        choosing.step(router, &others, c, draw)?;
    }
    Ok(choosing)
}
