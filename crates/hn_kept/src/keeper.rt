ghost use Rattle.std.specs.Prelude.{◌≡◌, ◌≢◌, ◌≤◌, ◌^◌, ◌+◌, [], length, nat_lt, true, false, OnOk, OnErr, IfOk};
ghost use Rattle.hn_pair.specs.Pair.{IsAscending};
ghost use Rattle.hn_router.specs.Act.{plain_event, Tick};
ghost use Rattle.hn_departed.specs.Departed.{told_at, told_but, with_earlier};
ghost use Rattle.hn_kept.specs.Chosen.{ula_event, address_event, MakesUla, ChoosesAddresses};
ghost use Rattle.hn_kept.specs.Choosing.{AreChosen};
ghost use Rattle.hn_kept.specs.Kept.{Acts, IsNewKept, IsNextAdvert, asked_of, room_beside};
ghost use Rattle.hn_kept.specs.Preferred.{preferred_pair, without_pair, with_preferred};
ghost use Rattle.hn_kept.specs.Words.{AreDrawn};

use crate::choosing::Asked;
use crate::preferred::{Preferences, Preferred, without_pair};
use crate::words::{ChaChaWords, ListedWords};
use hn_addr::{Choice, choose};
use hn_advert::{Advert, bytes};
use hn_assign::pairs_are_ordered;
use hn_base::{Bytes, EpId, Moment, NoMemory, NodeId, Words};
use hn_departed::{Departures, Told, few_are_kept};
use hn_prefix::Prefix;
use hn_router::{Event, Router, moment_is_now, one_result};
use hn_rules::Done;
use hn_ula::{Ula, decide};
use std::alloc::Global;
use std::marker::Model;
use std::mem::replace;

/// How many bytes an advertisement has at most: 1,280 (RFC 8200, section 5), less 40 of the IPv6 header, and 8 for an
/// extension header.
const MOST_BYTES: usize = 1232;

/// How many bytes an advertisement has before its options, and a Prefix Information option (RFC 4861, sections 4.2 and
/// 4.6.2).
const HEADER_BYTES: usize = 16;

const PREFIX_BYTES: usize = 32;

/// So many departed prefixes have room beside so many bytes of options, and so many prefixes that are to be advertised.
fn room_beside(options: usize, count: usize) -> usize
    ensures { result ≡ room_beside options count }
{
    ((MOST_BYTES - HEADER_BYTES).saturating_sub(options) / PREFIX_BYTES).saturating_sub(count)
}

/// The event by which a decision is made true. A prefix is announced for ever, and time passes where there is nothing to do.
fn ula_event(decided: &Ula) -> Event<'static>
    ensures { plain_event result ≡ ula_event decided.now }
{
    let _place = no_place();
    match decided {
        Ula::Keep => Event::Tick,
        Ula::Announce(prefix) => Event::External {
            prefix: *prefix,
            valid: u32::MAX,
            preferred: u32::MAX,
        },
        Ula::Withdraw(prefix) => Event::Withdraw { prefix: *prefix },
    }
}

/// The event by which a choice of addresses is made true. Time passes where they stay.
fn address_event(choice: &Choice) -> Event<'_>
    ensures { plain_event result ≡ address_event choice.now }
{
    let _place = no_place();
    match choice {
        Choice::Keep => Event::Tick,
        Choice::Set(list) => Event::Addresses {
            list: list.as_slice(),
        },
    }
}

// No place. The checker has to see the type of an endpoint in the signature of a call.
fn no_place() -> EpId {
    EpId(0)
}

/// How many pairs may have a preferred prefix.
const MOST_PREFERRED: usize = 512;

/// A router with its random words, what its last event came to, what it advertised, and what is preferred. Contracts see all
/// five.
#[derive(Drop)]
pub struct Keeper {
    router: Router,
    done: Done,
    departures: Departures,
    words: ChaChaWords,
    preferred: Preferences,
}

impl Model for Keeper {
    ghost use Rattle.hn_kept.specs.Kept.{Kept};

    ghost Value = { Kept };

    ghost view = { λ k. record { router = k.router; done = k.done; told = k.departures; words = k.words; preferred = k.preferred } };

    ghost use Rattle.std.specs.Prelude.{◌≤◌, ◌^◌};

    ghost invariant = { λ k. k.router.moment ≤ 2 ^ 48 };
}

impl Keeper {
    /// A new router, which may hold 256 other nodes, with random words of a seed. Nothing has happened to it.
    ///
    /// # Errors
    ///
    /// Out of memory.
    pub fn new(alloc: Global, id: NodeId, now: Moment, seed: [u8; 32]) -> Result<Keeper, NoMemory>
        requires { now ≤ 2 ^ 48 }
        ensures { IfOk result (IsNewKept id now seed) }
    {
        let router = Router::new(alloc, id, now)?;
        Ok(Keeper {
            router,
            done: Done::new(alloc),
            departures: Departures::new(alloc),
            words: ChaChaWords::new(seed),
            preferred: Preferences::new(alloc),
        })
    }

    /// A prefix is preferred for a pair, in place of what was before, if 511 other pairs or fewer have one: whether they have.
    /// Nothing forgets it.
    ///
    /// Where a tick makes the assignment of the pair anew, and this prefix is free when the turn of the pair comes, the pair has
    /// it afterwards and publishes it. (Laws `free_is_published` and `new_is_preferred`.) A pair that comes later in the order of
    /// pairs can lose its prefix by that.
    ///
    /// A tick is planned once before it happens, if something is preferred. Where preferred pairs would get other prefixes anew,
    /// it is planned at most once more for each of them at each random word that it takes.
    ///
    /// # Errors
    ///
    /// Out of memory; all is as before then.
    pub fn prefer(&mut self, alloc: Global, preferred: &Preferred) -> Result<bool, NoMemory>
        ensures room { IfOk result (λ set. set ≡ nat_lt (length (without_pair preferred.now self.old.preferred)) 512) }
        ensures set { IfOk result (λ set. set ≡ true → self.new ≡ record self.old { preferred = with_preferred preferred.now self.old.preferred }) }
        ensures full { IfOk result (λ set. set ≡ false → self.new ≡ self.old) }
        ensures err { OnErr result (self.new ≡ self.old) }
    {
        let others = without_pair(alloc, preferred, self.preferred.as_slice())?;
        if MOST_PREFERRED <= others.len() {
            return Ok(false);
        }
        let all = self.preferred.with(alloc, preferred)?;
        self.preferred = all;
        Ok(true)
    }

    /// The words that an event is to begin with: in a tick those that are chosen, if prefixes are preferred; else none.
    fn chosen(&self, alloc: Global, event: &Event<'_>, now: Moment) -> Result<Words, NoMemory>
        requires not_before { self.now.router.moment ≤ now }
        requires in_range { now ≤ 2 ^ 48 }
        ensures ascends { IsAscending preferred_pair self.now.preferred }
        ensures drawn { IfOk result (AreDrawn self.now.preferred self.now.words) }
        ensures chosen { IfOk result (λ words. plain_event event.now ≡ Tick → self.now.preferred ≢ []
            → AreChosen (asked_of now (plain_event event.now) self.now) words) }
    {
        let preferred = self.preferred.as_slice();
        if !matches!(*event, Event::Tick) || preferred.is_empty() {
            return Ok(Words::new(alloc));
        }
        let asked = Asked {
            moment: now,
            event,
            router: &self.router,
            words: &self.words,
            preferred,
        };
        let mut own = Router::new(alloc, self.router.id(), now)?;
        let mut other = Router::new(alloc, self.router.id(), now)?;
        asked.choose(alloc, &mut own, &mut other)
    }

    /// An event happens to the router at a moment. In a tick a preferred pair whose assignment is made anew gets its prefix, if
    /// that is free then (`prefer`).
    ///
    /// # Errors
    ///
    /// Out of memory; all is as before then, the random words too.
    pub fn act(&mut self, alloc: Global, event: &Event<'_>, now: Moment) -> Result<(), NoMemory>
        requires not_before { self.old.router.moment ≤ now }
        requires in_range { now ≤ 2 ^ 48 }
        ensures ok { OnOk result (Acts now (plain_event event.now) self.old self.new) }
        ensures err { OnErr result (self.new ≡ self.old) }
    {
        moment_is_now();
        one_result();
        let chosen = self.chosen(alloc, event, now)?;
        let mut draw = ListedWords {
            listed: chosen.as_slice(),
            generator: self.words.copy(),
        };
        let done = self.router.act(alloc, event, now, &mut draw)?;
        self.words.pass(done.words.len());
        self.done = done;
        Ok(())
    }

    /// An event happens as by `act`, over other words than the own ones.
    fn act_over(
        &mut self,
        alloc: Global,
        words: ChaChaWords,
        event: &Event<'_>,
        now: Moment,
    ) -> Result<(), NoMemory>
        requires not_before { self.old.router.moment ≤ now }
        requires in_range { now ≤ 2 ^ 48 }
        ensures ok { OnOk result (Acts now (plain_event event.now) (record self.old { words = words }) self.new) }
        ensures err { OnErr result (self.new ≡ self.old) }
    {
        let own = replace(&mut self.words, words);
        match self.act(alloc, event, now) {
            Ok(()) => Ok(()),
            Err(error) => {
                self.words = own;
                Err(error)
            }
        }
    }

    /// The router decides whether to announce a ULA prefix of its own making, to withdraw one, or to keep what there is, as of
    /// its last event (`hn_ula`). Then this happens at a moment; where it keeps what there is, time passes.
    ///
    /// # Errors
    ///
    /// Out of memory; all is as before then, the random words too.
    pub fn ula(&mut self, alloc: Global, now: Moment) -> Result<(), NoMemory>
        requires not_before { self.old.router.moment ≤ now }
        requires in_range { now ≤ 2 ^ 48 }
        ensures ok { OnOk result (MakesUla now self.old self.new) }
        ensures err { OnErr result (self.new ≡ self.old) }
    {
        let _place = no_place();
        let mut words = self.words.copy();
        let decided = decide(alloc, &self.router, &mut words)?;
        self.act_over(alloc, words, &ula_event(&decided), now)?;
        Ok(())
    }

    /// The router chooses an address in each applied prefix, as of its last event (`hn_addr`). Then it gets these at a moment;
    /// where they stay, time passes.
    ///
    /// # Errors
    ///
    /// Out of memory; all is as before then, the random words too.
    pub fn address(&mut self, alloc: Global, now: Moment) -> Result<(), NoMemory>
        requires not_before { self.old.router.moment ≤ now }
        requires in_range { now ≤ 2 ^ 48 }
        ensures ok { OnOk result (ChoosesAddresses now self.old self.new) }
        ensures err { OnErr result (self.new ≡ self.old) }
    {
        let mut words = self.words.copy();
        let choice = choose(alloc, &self.router, &mut words)?;
        self.act_over(alloc, words, &address_event(&choice), now)?;
        Ok(())
    }

    /// The router. Never allocates.
    pub fn router(&self) -> &Router
        ensures { result.now ≡ self.now.router }
    {
        &self.router
    }

    /// The moment up to which each tick does nothing, never above 2^49. Never allocates.
    pub fn due(&self) -> Moment
        ensures value { result ≡ self.now.router.due }
        ensures most { result ≤ 2 ^ 49 }
    {
        self.router.due_at()
    }

    /// What its last event came to. Never allocates.
    pub fn done(&self) -> &Done
        ensures { result.now ≡ self.now.done }
    {
        &self.done
    }

    /// The bytes of an advertisement that is to be sent on an endpoint now, with the prefixes that were advertised there and
    /// are no longer, as far as there is room beside so many bytes of the caller's options; and what was advertised once it is
    /// sent, which is to be told (`tell`). They are at most 1,232, whatever happened before, and with the options too where
    /// these are at most 192.
    ///
    /// # Errors
    ///
    /// Out of memory.
    pub fn next_advert(
        &self,
        alloc: Global,
        at: EpId,
        options: usize,
    ) -> Result<(Bytes, Departures), NoMemory>
        ensures next { IfOk result (λ next. IsNextAdvert self.now at options next.0 next.1) }
        ensures short { IfOk result (λ next. length next.0 ≤ 1232) }
        ensures beside { IfOk result (λ next. options ≤ 192 → length next.0 + options ≤ 1232) }
    {
        pairs_are_ordered();
        few_are_kept();
        self.router.is_router();
        let advert = self.router.advertisement(alloc, at)?;
        let now = self.router.moment();
        let room = room_beside(options, advert.infos.len());
        let (infos, departures) = self
            .departures
            .next(alloc, now, at, advert.infos.as_slice(), room)?;
        let whole = Advert {
            managed: advert.managed,
            other: advert.other,
            lifetime: advert.lifetime,
            infos,
        };
        Ok((bytes(alloc, &whole)?, departures))
    }

    /// What was advertised, each with its endpoint. Never allocates.
    pub fn departures(&self) -> &[(EpId, Told)]
        ensures { result.now ≡ self.now.told }
    {
        self.departures.as_slice()
    }

    /// A prefix was advertised on an endpoint in an earlier life, and is valid for so many seconds from the moment of the last
    /// event on: whether it is taken. It is where fewer than 64 others were told there.
    ///
    /// # Errors
    ///
    /// Out of memory; all is as before then.
    pub fn depart(
        &mut self,
        alloc: Global,
        at: EpId,
        prefix: &Prefix,
        valid: u32,
    ) -> Result<bool, NoMemory>
        ensures room { IfOk result (λ taken. taken ≡ nat_lt (length (told_at at (told_but at prefix.now self.old.told))) 64) }
        ensures taken { IfOk result (λ taken. taken ≡ true → self.new ≡ record self.old { told = with_earlier self.old.router.moment at prefix.now valid self.old.told }) }
        ensures full { IfOk result (λ taken. taken ≡ false → self.new ≡ self.old) }
        ensures err { OnErr result (self.new ≡ self.old) }
    {
        let now = self.router.moment();
        self.departures.depart(alloc, now, at, prefix, valid)
    }

    /// This is what was advertised. Never allocates.
    pub fn tell(&mut self, departures: Departures)
        ensures { self.new ≡ record self.old { told = departures } }
    {
        self.departures = departures;
    }
}
