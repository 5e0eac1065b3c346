//! The turns of a node.

ghost use Rattle.std.specs.Prelude.{◌≡◌, ◌≤◌, ◌^◌, [], ◌∷◌, Some, Err, List, Option, OnOk, IfSome};
ghost use Rattle.hn_io.specs.Faults.{IsCaused};
ghost use Rattle.hn_wire.specs.declared.datagram.Datagram.{Datagram};
ghost use Rattle.hn_node.specs.declared.logged.Logged.{Logged};
ghost use Rattle.hn_node.specs.declared.logged.NodeEvent.{NodeEvent};
ghost use Rattle.hn_node.specs.Turns.{serving, handed_of, handed_in, Steps, CutSteps, Arrives, IsLoggedTurn, CutTurn, AreTurns, CutTurns, StarvesSteps, StarvesTurn, StarvesTurns, IsShort};
ghost use Rattle.hn_node.specs.Steps.{plain_site, IsSite, AddsEntry, Grows};

use crate::logged;
use crate::sending::{Site, hand_all};
use crate::taking::take_turn;
use hn_base::{Moment, Sequence};
use hn_io::{Draw, IoFault};
use hn_router::{Router, limit_stays, moment_is_now};
use hn_wire::{Clock, Wire};
use std::alloc::Global;

/// A router that is served, its log, and how many datagrams were sent.
#[derive(Drop)]
pub(crate) struct Node {
    pub(crate) router: Router,
    pub(crate) log: Sequence<logged::Logged>,
    pub(crate) sent: u64,
}

impl Node {
    /// An event happens to the router and is entered in the log, and what comes of it is sent.
    fn step<W: Wire, D: Draw>(
        &mut self,
        alloc: Global,
        site: &Site<'_>,
        wire: &mut W,
        draw: &mut D,
        event: logged::NodeEvent,
        now: Moment,
    ) -> Result<(), IoFault>
        requires past { self.old.router.moment ≤ now }
        requires in_range { now ≤ 2 ^ 48 }
        requires site { IsSite (plain_site site.now) }
        requires short { IsShort event }
        ensures ok { OnOk result ((l : Logged) × Steps (plain_site site.now) now event l
            (serving self.old.router (W.waiting wire.old)) (serving self.new.router (W.waiting wire.new))
            × AddsEntry l (handed_of (plain_site site.now) l.sends) (D.words draw.old) (D.words draw.new) self.old self.new) }
        ensures cut { result ≡ Err IoFault.Failed → (l : Logged) × (front : List Datagram) × CutSteps (plain_site site.now) now event l front
            (serving self.old.router (W.waiting wire.old)) (serving self.new.router (W.waiting wire.new))
            × AddsEntry l front (D.words draw.old) (D.words draw.new) self.old self.new }
        ensures starved { result ≡ Err IoFault.NoMemory → StarvesSteps (plain_site site.now) now event
            (serving self.old.router (W.waiting wire.old)) (W.waiting wire.new) }
        ensures moment { OnOk result (self.new.router.moment ≡ now) }
        ensures caused { IsCaused (result ≡ Err IoFault.Failed) (W.faults wire.old) (W.faults wire.new)
            (W.never_fails wire.old) (W.never_fails wire.new) }
    {
        moment_is_now();
        limit_stays();
        let Ok(done) = self.router.act(alloc, &event.event(), now, draw) else {
            return Err(IoFault::NoMemory);
        };
        let entry = logged::Logged {
            moment: now,
            event,
            words: done.words,
            sends: done.sends,
        };
        let at = self.log.len();
        if self.log.push(entry).is_err() {
            return Err(IoFault::NoMemory);
        }
        let sends = self.log.as_slice()[at].sends.as_slice();
        hand_all(wire, site, sends, &mut self.sent)
    }

    /// What was taken arrives, if something was.
    fn arrive<W: Wire, D: Draw>(
        &mut self,
        alloc: Global,
        site: &Site<'_>,
        wire: &mut W,
        draw: &mut D,
        taken: Option<logged::NodeEvent>,
        now: Moment,
    ) -> Result<(), IoFault>
        requires past { self.old.router.moment ≤ now }
        requires in_range { now ≤ 2 ^ 48 }
        requires site { IsSite (plain_site site.now) }
        requires short { IfSome taken IsShort }
        ensures ok { OnOk result ((entries : List Logged) × Arrives (plain_site site.now) now taken entries
            (serving self.old.router (W.waiting wire.old)) (serving self.new.router (W.waiting wire.new))
            × Grows entries (handed_in (plain_site site.now) entries) (D.words draw.old) (D.words draw.new) self.old self.new) }
        ensures cut { result ≡ Err IoFault.Failed → (event : NodeEvent) × (taken ≡ Some event)
            × ((l : Logged) × (front : List Datagram) × CutSteps (plain_site site.now) now event l front
            (serving self.old.router (W.waiting wire.old)) (serving self.new.router (W.waiting wire.new))
            × AddsEntry l front (D.words draw.old) (D.words draw.new) self.old self.new) }
        ensures starved { result ≡ Err IoFault.NoMemory → (event : NodeEvent) × (taken ≡ Some event)
            × StarvesSteps (plain_site site.now) now event (serving self.old.router (W.waiting wire.old)) (W.waiting wire.new) }
        ensures moment { OnOk result (self.new.router.moment ≤ now) }
        ensures caused { IsCaused (result ≡ Err IoFault.Failed) (W.faults wire.old) (W.faults wire.new)
            (W.never_fails wire.old) (W.never_fails wire.new) }
    {
        match taken {
            None => Ok(()),
            Some(event) => self.step(alloc, site, wire, draw, event, now),
        }
    }

    /// A turn at a moment: what waits is taken, by way of the buffer, and arrives, and the router ticks.
    fn turn<W: Wire, D: Draw>(
        &mut self,
        alloc: Global,
        site: &Site<'_>,
        wire: &mut W,
        draw: &mut D,
        buffer: &mut [u8; 65_536],
        now: Moment,
    ) -> Result<(), IoFault>
        requires past { self.old.router.moment ≤ now }
        requires in_range { now ≤ 2 ^ 48 }
        requires site { IsSite (plain_site site.now) }
        ensures ok { OnOk result ((entries : List Logged) × IsLoggedTurn (plain_site site.now) now entries
            (serving self.old.router (W.waiting wire.old)) (serving self.new.router (W.waiting wire.new))
            × Grows entries (handed_in (plain_site site.now) entries) (D.words draw.old) (D.words draw.new) self.old self.new) }
        ensures cut { result ≡ Err IoFault.Failed → (entries : List Logged) × (handed : List Datagram)
            × CutTurn (plain_site site.now) now entries handed
            (serving self.old.router (W.waiting wire.old)) (serving self.new.router (W.waiting wire.new))
            × Grows entries handed (D.words draw.old) (D.words draw.new) self.old self.new }
        ensures starved { result ≡ Err IoFault.NoMemory → StarvesTurn (plain_site site.now) now
            (serving self.old.router (W.waiting wire.old)) (W.waiting wire.new) }
        ensures moment { OnOk result (self.new.router.moment ≡ now) }
        ensures caused { IsCaused (result ≡ Err IoFault.Failed) (W.faults wire.old) (W.faults wire.new)
            (W.never_fails wire.old) (W.never_fails wire.new) }
    {
        let taken = take_turn(alloc, wire, site, buffer)?;
        self.arrive(alloc, site, wire, draw, taken, now)?;
        self.step(alloc, site, wire, draw, logged::NodeEvent::Tick, now)
    }

    /// So many turns.
    pub(crate) fn turns<W: Wire, C: Clock, D: Draw>(
        &mut self,
        alloc: Global,
        site: &Site<'_>,
        wire: &mut W,
        clock: &mut C,
        draw: &mut D,
        turns: u32,
    ) -> Result<(), IoFault>
        requires past { self.old.router.moment ≤ C.last clock.old }
        requires site { IsSite (plain_site site.now) }
        ensures ok { OnOk result ((log : List Logged) × AreTurns (plain_site site.now) turns log
            (serving self.old.router (W.waiting wire.old)) (serving self.new.router (W.waiting wire.new))
            (C.readings clock.old) (C.readings clock.new)
            × Grows log (handed_in (plain_site site.now) log) (D.words draw.old) (D.words draw.new) self.old self.new) }
        ensures cut { result ≡ Err IoFault.Failed → (log : List Logged) × (handed : List Datagram)
            × CutTurns (plain_site site.now) turns log handed
            (serving self.old.router (W.waiting wire.old)) (serving self.new.router (W.waiting wire.new))
            (C.readings clock.old) (C.readings clock.new)
            × Grows log handed (D.words draw.old) (D.words draw.new) self.old self.new }
        ensures starved { result ≡ Err IoFault.NoMemory → StarvesTurns (plain_site site.now) turns
            (serving self.old.router (W.waiting wire.old)) (W.waiting wire.new) (C.readings clock.old) (C.readings clock.new) }
        ensures caused { IsCaused (result ≡ Err IoFault.Failed) (W.faults wire.old) (W.faults wire.new)
            (W.never_fails wire.old) (W.never_fails wire.new) }
    {
        let mut buffer = [0; 65_536];
        for _ in 0..turns {
            let now = clock.now();
            if let Err(fault) = self.turn(alloc, site, wire, draw, &mut buffer, now) {
                return Err(fault);
            }
        }
        Ok(())
    }
}
