//! Which words a router takes for an event where prefixes are preferred: those of its generator, but that the word of a preferred
//! place is taken in the stead of one with which its pair would get another prefix.

ghost use Rattle.std.specs.Prelude.{◌≡◌, ◌⊎◌, ◌^◌, ◌≤◌, true, false, Some, [], ◌∷◌, ◌++◌, Contains, IfOk, IfSome, IfNone};
ghost use Rattle.std.specs.List.{list_any};
ghost use Rattle.hn_pair.specs.declared.pair.Pair.{Pair};
ghost use Rattle.hn_pair.specs.Pair.{IsAscending};
ghost use Rattle.hn_kept.specs.Choosing.{plain_asked, EventComesTo, ComesWith, LeavesOver, Helps, IsTaker, MayBePassed, IsFirstHelped, AreChosen};
ghost use Rattle.hn_kept.specs.Preferred.{preferred_pair, word_of, is_missed};
ghost use Rattle.hn_kept.specs.Words.{listed_word};

use crate::changes::first_changed;
use crate::preferred::Preferred;
use crate::words::{ChaChaWords, ListedWords};
use hn_assign::{Pair, pairs_are_ordered};
use hn_base::{Moment, NoMemory, Words};
use hn_router::{Event, Router, event_in_range, one_result, router_stays};
use hn_rules::Done;
use std::alloc::Global;
use std::mem::swap;

/// An event of a router at a moment, the generator of its next words, and what is preferred.
#[derive(Clone, Copy)]
pub(crate) struct Asked<'a> {
    pub(crate) moment: Moment,
    pub(crate) event: &'a Event<'a>,
    pub(crate) router: &'a Router,
    pub(crate) words: &'a ChaChaWords,
    pub(crate) preferred: &'a [Preferred],
}

/// Some words, and another one behind them.
fn behind(alloc: Global, front: &[u32], word: u32) -> Result<Words, NoMemory>
    ensures { IfOk result (λ words. words ≡ front.now ++ word ∷ []) }
{
    let mut words = Words::copy_of(alloc, front)?;
    words.push(word)?;
    Ok(words)
}

impl Asked<'_> {
    /// What the event comes to over listed words, and the generator's behind them: the words that it takes. What it leaves of
    /// the router is seen on another one.
    fn come(&self, alloc: Global, listed: &[u32], seen: &mut Router) -> Result<Words, NoMemory>
        requires not_before { self.now.router.now.moment ≤ self.now.moment }
        requires in_range { self.now.moment ≤ 2 ^ 48 }
        ensures { IfOk result (λ words. EventComesTo (plain_asked self.now) (listed_word listed.now self.now.words.now) words seen.new) }
    {
        self.router.is_router();
        event_in_range(self.event);
        router_stays();
        let mut draw = ListedWords {
            listed,
            generator: self.words.copy(),
        };
        let plan = self.router.plan(alloc, self.event, self.moment, &mut draw)?;
        let Done { words, .. } = seen.commit(plan);
        Ok(words)
    }

    /// Whether the router publishes another prefix than the preferred one for some pair, from this moment on.
    fn misses(&self, own: &Router) -> bool
        ensures { result ≡ list_any (is_missed self.now.moment own.now.held.assigned) self.now.preferred.now }
    {
        let assigned = own.held().assigned.as_slice();
        self.preferred
            .iter()
            .any(|f| f.is_missed(self.moment, assigned))
    }

    /// The words that the event takes with that of a preferred place behind others, if it helps the pair there, which misses its
    /// prefix. What it leaves so is seen on another router.
    fn helped(
        &self,
        alloc: Global,
        front: &[u32],
        wanted: &Preferred,
        own: &Router,
        other: &mut Router,
    ) -> Result<Option<Words>, NoMemory>
        requires not_before { self.now.router.now.moment ≤ self.now.moment }
        requires in_range { self.now.moment ≤ 2 ^ 48 }
        requires own { LeavesOver (plain_asked self.now) front.now own.now }
        requires missed { is_missed self.now.moment own.now.held.assigned wanted.now ≡ true }
        ensures helps { IfOk result (λ found. IfSome found (λ words. Helps (plain_asked self.now) front.now wanted.now)) }
        ensures comes { IfOk result (λ found. IfSome found (λ words. ComesWith (plain_asked self.now) front.now (word_of wanted.now) words other.new)) }
        ensures leaves { IfOk result (λ found. LeavesOver (plain_asked self.now) (front.now ++ word_of wanted.now ∷ []) other.new) }
        ensures none { IfOk result (λ found. IfNone found (¬ (Helps (plain_asked self.now) front.now wanted.now))) }
    {
        one_result();
        let listed = behind(alloc, front, wanted.word())?;
        let words = self.come(alloc, listed.as_slice(), other)?;
        let had = own.held().assigned.as_slice();
        if wanted.is_served(alloc, had, other.held().assigned.as_slice())? {
            Ok(Some(words))
        } else {
            Ok(None)
        }
    }

    /// Whether a preferred pair is passed over: the router does not publish another prefix for it anew, or another pair takes
    /// the word.
    fn is_passed(&self, wanted: &Preferred, taker: &Option<Pair>, own: &Router) -> bool
        ensures passed { result ≡ true → (is_missed self.now.moment own.now.held.assigned wanted.now ≡ false) ⊎ ((pair : Pair) × (taker.now ≡ Some pair) × ¬ (pair ≡ preferred_pair wanted.now)) }
        ensures missed { result ≡ false → is_missed self.now.moment own.now.held.assigned wanted.now ≡ true }
    {
        if !wanted.is_missed(self.moment, own.held().assigned.as_slice()) {
            return true;
        }
        match taker {
            Some(pair) => *pair != wanted.pair(),
            None => false,
        }
    }

    /// The words that the event takes with that of a preferred place behind others, if it helps the pair there and the pair is
    /// not passed over. Else it is found out which pair takes the word, if that is not known.
    fn tried(
        &self,
        alloc: Global,
        front: &[u32],
        wanted: &Preferred,
        taker: &mut Option<Pair>,
        own: &Router,
        other: &mut Router,
    ) -> Result<Option<Words>, NoMemory>
        requires not_before { self.now.router.now.moment ≤ self.now.moment }
        requires in_range { self.now.moment ≤ 2 ^ 48 }
        requires own { LeavesOver (plain_asked self.now) front.now own.now }
        requires taker { IfSome taker.old (IsTaker (plain_asked self.now) front.now) }
        ensures helps { IfOk result (λ found. IfSome found (λ words. Helps (plain_asked self.now) front.now wanted.now)) }
        ensures comes { IfOk result (λ found. IfSome found (λ words. ComesWith (plain_asked self.now) front.now (word_of wanted.now) words other.new)) }
        ensures taker { IfOk result (λ found. IfSome taker.new (IsTaker (plain_asked self.now) front.now)) }
        ensures passed { IfOk result (λ found. IfNone found (MayBePassed (plain_asked self.now) front.now wanted.now)) }
    {
        one_result();
        if self.is_passed(wanted, taker, own) {
            return Ok(None);
        }
        let found = self.helped(alloc, front, wanted, own, other)?;
        if found.is_some() || taker.is_some() {
            return Ok(found);
        }
        let had = own.held().assigned.as_slice();
        *taker = first_changed(alloc, other.held().assigned.as_slice(), had)?;
        Ok(found)
    }

    /// The word of a preferred place that helps the first pair behind others, and the words that the event takes with it.
    fn first_helped(
        &self,
        alloc: Global,
        front: &[u32],
        own: &Router,
        other: &mut Router,
    ) -> Result<Option<(u32, Words)>, NoMemory>
        requires not_before { self.now.router.now.moment ≤ self.now.moment }
        requires in_range { self.now.moment ≤ 2 ^ 48 }
        requires ascends { IsAscending preferred_pair self.now.preferred.now }
        requires own { LeavesOver (plain_asked self.now) front.now own.now }
        ensures first { IfOk result (λ found. IfSome found (λ next. (f : Preferred) × IsFirstHelped (plain_asked self.now) front.now f × (next.0 ≡ word_of f))) }
        ensures comes { IfOk result (λ found. IfSome found (λ next. ComesWith (plain_asked self.now) front.now next.0 next.1 other.new)) }
        ensures none { IfOk result (λ found. IfNone found ((f : Preferred) → Contains self.now.preferred.now f → MayBePassed (plain_asked self.now) front.now f)) }
    {
        pairs_are_ordered();
        let mut taker = None;
        for wanted in self.preferred {
            let found = self.tried(alloc, front, wanted, &mut taker, own, other)?;
            if let Some(words) = found {
                return Ok(Some((wanted.word(), words)));
            }
        }
        Ok(None)
    }

    /// The words that are chosen. What comes of words is seen on two other routers. The event is planned once; and then, at each
    /// place of the words, once for each pair that misses its prefix, until one is helped. Where the pair that takes the word is
    /// found, only this one is tried. Where no pair misses its prefix any more, nothing is tried.
    ///
    /// # Errors
    ///
    /// Out of memory.
    pub(crate) fn choose(
        &self,
        alloc: Global,
        own: &mut Router,
        other: &mut Router,
    ) -> Result<Words, NoMemory>
        requires not_before { self.now.router.now.moment ≤ self.now.moment }
        requires in_range { self.now.moment ≤ 2 ^ 48 }
        requires ascends { IsAscending preferred_pair self.now.preferred.now }
        ensures { IfOk result (AreChosen (plain_asked self.now)) }
    {
        one_result();
        let mut chosen = Words::new(alloc);
        let mut words = self.come(alloc, &[], own)?;
        while chosen.len() < words.len() && self.misses(own) {
            match self.first_helped(alloc, chosen.as_slice(), own, other)? {
                Some((word, others)) => {
                    chosen.push(word)?;
                    words = others;
                    swap(own, other);
                }
                None => chosen.push(words.as_slice()[chosen.len()])?,
            }
        }
        Ok(words)
    }
}
