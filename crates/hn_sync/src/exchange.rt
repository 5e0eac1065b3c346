//! One exchange: a router asks another one for the network state, and each datagram of this is delivered at once.

ghost use Rattle.std.specs.Prelude.{◌≡◌, ◌⊎◌, ◌+◌, ℕ, Bool, List, None, Some, Err, OnOk, OnErr};
ghost use Rattle.hn_base.specs.Words.{Took};
ghost use Rattle.hn_rules.specs.declared.done.Note.{Note};
ghost use Rattle.hn_world.specs.declared.event.Traced.{Traced};
ghost use Rattle.hn_world.specs.declared.event.WEvent.{WEvent};
ghost use Rattle.hn_world.specs.declared.parts.Parts.{Parts};
ghost use Rattle.hn_world.specs.Refusal.{refusal};
ghost use Rattle.hn_world.specs.Replay.{words_of_trace};
ghost use Rattle.hn_world.specs.Step.{IsStep};
ghost use Rattle.hn_sync.specs.Exchange.{CopiesAreDelivered, ExchangesSoFar, HasAnEnd, IsCutOff, ExchangeStopsAt, unless_exchange};
ghost use Rattle.hn_sync.specs.Repairs.{Repairs};

use crate::joint::unless_exchange;
use crate::laws::{exchange_exists, exchange_repairs, refused_or_asked, stops_for_room_alone};
use crate::question::question;
use hn_base::Name;
use hn_io::{Draw, words_join};
use hn_world::{WEvent, World, WorldFault, each_event_is_entered};
use std::alloc::Global;

/// An exchange between two routers of a world.
pub trait Exchange {
    ghost parts: { Self → Parts };

    /// Whether the trace is kept for reading.
    ghost keeps_trace: { Self → Bool };

    /// B asks a for the network state (RFC 7787, section 4.2): a Request Network State arrives at the least endpoint of a
    /// that is joined with one of b, by unicast, from the address of the least one of b for it. Endpoints are joined that
    /// are peers of each other and are attached to one link. Then each copy that was made since is delivered, in ascending
    /// number, new ones included, until every one was. All this is one moment.
    ///
    /// Afterwards b is repaired: of each node that a reaches, other than b, it holds the sequence number and the data that a
    /// knows; or it held a number that is not older, and holds it still; or what a knows of the node, and what b held of it
    /// or no data, collide. So it is where b has room for what a reaches, and has one identifier all the while.
    ///
    /// Whether there is memory or not, it cannot be that an exchange that has a question does not end over a stream of random
    /// words. A trace that is kept for reading stays kept.
    ///
    /// # Errors
    ///
    /// `Refused`, and then the world and the draw are as before: 7, a name is unknown, which is asked of both first;
    /// 12, one of the two is stopped; 18, no endpoints of the two are joined. `Refused` where the next of the events is
    /// refused: 9, it would be the 1,000,001st event; 16, there is too much mail; what happened before stands then. Out
    /// of memory, but not where 7, 12 or 18 comes; a front of the exchange stands then, and nothing is said of the
    /// draw.
    fn sync<D: Draw>(
        &mut self,
        alloc: Global,
        a: &Name,
        b: &Name,
        draw: &mut D,
    ) -> Result<(), WorldFault>
        ensures ok { OnOk result (ExchangesSoFar a.now b.now None (D.words draw.old) (D.words draw.new) (parts self.old) (parts self.new)) }
        ensures repairs { OnOk result (Repairs a.now b.now (parts self.old) (parts self.new)) }
        ensures first { (code : ℕ) → unless_exchange a.now b.now (parts self.old) ≡ Some code
            → (result ≡ Err (WorldFault.Refused code)) × (self.new ≡ self.old) × (draw.new ≡ draw.old) }
        ensures later { (code : ℕ) → unless_exchange a.now b.now (parts self.old) ≡ None → result ≡ Err (WorldFault.Refused code)
            → ExchangeStopsAt a.now b.now code (D.words draw.old) (D.words draw.new) (parts self.old) (parts self.new) }
        ensures room { (code : ℕ) → unless_exchange a.now b.now (parts self.old) ≡ None → result ≡ Err (WorldFault.Refused code)
            → (code ≡ 9) ⊎ (code ≡ 16) }
        ensures starved { result ≡ Err WorldFault.NoMemory
            → IsCutOff a.now b.now (parts self.old) (parts self.new) }
        ensures exists { unless_exchange a.now b.now (parts self.old) ≡ None → HasAnEnd a.now b.now (parts self.old) }
        ensures kept { keeps_trace self.new ≡ keeps_trace self.old };
}

/// The copy of a number is delivered.
///
/// # Errors
///
/// `Refused`, and out of memory. The world is as before then.
fn deliver<D: Draw>(
    world: &mut World,
    alloc: Global,
    copy: u64,
    draw: &mut D,
) -> Result<(), WorldFault>
    ensures ok { OnOk result ((notes : List Note) × IsStep (WEvent.Deliver copy) notes (D.words draw.old) (D.words draw.new) world.old.parts world.new.parts) }
    ensures refused { (code : ℕ) → result ≡ Err (WorldFault.Refused code) → refusal world.old.parts (WEvent.Deliver copy) ≡ Some code }
    ensures err { OnErr result (world.new ≡ world.old) }
    ensures undrawn { (code : ℕ) → result ≡ Err (WorldFault.Refused code) → draw.new ≡ draw.old }
    ensures kept { world.new.kept ≡ world.old.kept }
{
    world.apply(alloc, WEvent::Deliver { copy }, draw)?;
    Ok(())
}

/// The copies after so many are delivered, in ascending number, new ones included, until every one was.
///
/// # Errors
///
/// `Refused` with the code with which the next of the deliveries is refused, and out of memory. Those before it stand then.
fn deliver_after<D: Draw>(
    world: &mut World,
    alloc: Global,
    copies: u64,
    draw: &mut D,
) -> Result<(), WorldFault>
    ensures ok { OnOk result ((ts : List Traced) × CopiesAreDelivered (copies + 1) ts None world.old.parts world.new.parts × Took (D.words draw.old) (words_of_trace ts) (D.words draw.new)) }
    ensures refused { (code : ℕ) → result ≡ Err (WorldFault.Refused code)
        → (ts : List Traced) × (next : WEvent) × CopiesAreDelivered (copies + 1) ts (Some next) world.old.parts world.new.parts
        × (refusal world.new.parts next ≡ Some code) × Took (D.words draw.old) (words_of_trace ts) (D.words draw.new) }
    ensures starved { result ≡ Err WorldFault.NoMemory
        → (ts : List Traced) × (next : WEvent) × CopiesAreDelivered (copies + 1) ts (Some next) world.old.parts world.new.parts }
    ensures kept { world.new.kept ≡ world.old.kept }
{
    words_join();
    each_event_is_entered();
    let mut delivered = copies;
    while delivered < world.copies() {
        let copy = delivered + 1;
        deliver(world, alloc, copy, draw)?;
        delivered = copy;
    }
    Ok(())
}

/// It cannot be that an exchange that has a question does not end. Changes nothing: call it to know its law.
fn has_an_end(world: &World, a: &Name, b: &Name)
    ensures { unless_exchange a.now b.now world.now.parts ≡ None → HasAnEnd a.now b.now world.now.parts }
{
    exchange_exists();
    world.is_replayed();
}

impl Exchange for World {
    ghost parts = { λ w. w.parts };

    ghost keeps_trace = { λ w. w.kept };

    fn sync<D: Draw>(
        &mut self,
        alloc: Global,
        a: &Name,
        b: &Name,
        draw: &mut D,
    ) -> Result<(), WorldFault> {
        has_an_end(self, a, b);
        if let Some(code) = unless_exchange(self, a, b) {
            return Err(WorldFault::Refused(code));
        }
        words_join();
        refused_or_asked();
        stops_for_room_alone();
        exchange_repairs();
        self.is_replayed();
        let question = question(alloc, self, a, b)?;
        let copies = self.copies();
        self.apply(alloc, question, draw)?;
        deliver_after(self, alloc, copies, draw)
    }
}
