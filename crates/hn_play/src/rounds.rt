//! `run`: time passes, routers tick, and the mail flows.

ghost use Rattle.std.specs.Prelude.{◌≡◌, ◌≢◌, ◌≤◌, ◌<◌, ◌^◌, ◌+◌, List, Err, OnOk, length};
ghost use Rattle.hn_io.specs.Faults.{IsCaused};
ghost use Rattle.hn_play.specs.declared.end.Stop.{Stop};
ghost use Rattle.hn_play.specs.Ended.{IsAnswered};
ghost use Rattle.hn_play.specs.Writing.{EndsWriting};
ghost use Rattle.hn_play.specs.Process.{EachProcess};
ghost use Rattle.hn_play.specs.Sending.{TickEnds};
ghost use Rattle.hn_play.specs.Events.{Ticks, Passes, Round, Runs};
ghost use Rattle.hn_play.specs.Stage.{Route, stage_of};
ghost use Rattle.hn_play.specs.Told.{Told};

use crate::carrying::Carrier;
use crate::end::{Stop, stopping};
use crate::flowing::flow;
use crate::playing::Playing;
use crate::sending::tick;
use hn_base::{Moment, Name};
use hn_io::{IoFault, Sink};
use hn_world::{PAST, WEvent, WorldFault};
use std::alloc::Global;

/// Routers tick, one after another.
fn ticks_of<K: Sink>(
    playing: &mut Playing,
    alloc: Global,
    out: &mut K,
    names: &[Name],
) -> Result<(), Stop>
    ensures ends { (route : Route) (text : List Told) → EndsWriting (EachProcess TickEnds names.now) result
        (stage_of playing.old route text) (stage_of playing.new route text) (K.held out.old) (K.held out.new) }
    ensures unbroken { result ≢ Err Stop.WireFailed }
    ensures entered { OnOk result (length playing.old.world.parts.trace ≤ length playing.new.world.parts.trace) }
    ensures sink_caused { IsCaused (result ≡ Err (Stop.Cut IoFault.Failed)) (K.faults out.old) (K.faults out.new)
        (K.never_fails out.old) (K.never_fails out.new) }
{
    for name in names {
        tick(playing, alloc, out, *name)?;
    }
    Ok(())
}

/// The routers that run tick.
fn ticks<K: Sink>(playing: &mut Playing, alloc: Global, out: &mut K) -> Result<(), Stop>
    ensures ends { (route : Route) (text : List Told) → EndsWriting Ticks result (stage_of playing.old route text)
        (stage_of playing.new route text) (K.held out.old) (K.held out.new) }
    ensures unbroken { result ≢ Err Stop.WireFailed }
    ensures entered { OnOk result (length playing.old.world.parts.trace ≤ length playing.new.world.parts.trace) }
    ensures sink_caused { IsCaused (result ≡ Err (Stop.Cut IoFault.Failed)) (K.faults out.old) (K.faults out.new)
        (K.never_fails out.old) (K.never_fails out.new) }
{
    let names = playing.world.running_names(alloc)?;
    ticks_of(playing, alloc, out, names.as_slice())
}

/// Time passes by a step, but not past the end.
fn pass(playing: &mut Playing, alloc: Global, end: Moment, step: u64) -> Result<(), WorldFault>
    requires end { end ≤ 2 ^ 48 }
    requires step { step ≤ 2 ^ 48 }
    ensures ends { (route : Route) (text : List Told) → IsAnswered (Passes end step) result (stage_of playing.old route text)
        (stage_of playing.new route text) }
    ensures entered { OnOk result ((length playing.old.world.parts.trace < 1000000)
        × (length playing.new.world.parts.trace ≡ length playing.old.world.parts.trace + 1)) }
{
    let moment = playing.world.moment().saturating_add(step).min(end);
    playing.event(alloc, WEvent::Time { moment })
}

/// A round.
fn round<K: Sink, W, C: Carrier<W>>(
    playing: &mut Playing,
    alloc: Global,
    out: &mut K,
    carrier: &C,
    outside: &mut W,
    end: Moment,
    step: u64,
) -> Result<(), Stop>
    requires end { end ≤ 2 ^ 48 }
    requires step { step ≤ 2 ^ 48 }
    ensures ends { (text : List Told) → EndsWriting (Round end step) result
        (stage_of playing.old (C.route carrier.now outside.old) text)
        (stage_of playing.new (C.route carrier.now outside.new) text) (K.held out.old) (K.held out.new) }
    ensures entered { OnOk result ((length playing.old.world.parts.trace < 1000000)
        × (length playing.old.world.parts.trace < length playing.new.world.parts.trace)) }
    ensures caused { IsCaused (result ≡ Err Stop.WireFailed) (C.faults outside.old) (C.faults outside.new)
        (C.never_fails outside.old) (C.never_fails outside.new) }
    ensures sink_caused { IsCaused (result ≡ Err (Stop.Cut IoFault.Failed)) (K.faults out.old) (K.faults out.new)
        (K.never_fails out.old) (K.never_fails out.new) }
{
    stopping(pass(playing, alloc, end, step))?;
    ticks(playing, alloc, out)?;
    flow(playing, alloc, carrier, outside)
}

/// Rounds until a moment.
///
/// # Errors
///
/// The moment has passed, an event is refused, the wire failed, or memory ended.
pub fn run<K: Sink, W, C: Carrier<W>>(
    playing: &mut Playing,
    alloc: Global,
    out: &mut K,
    carrier: &C,
    outside: &mut W,
    end: Moment,
    step: u64,
) -> Result<(), Stop>
    requires end { end ≤ 2 ^ 48 }
    requires step { step ≤ 2 ^ 48 }
    ensures ends { (text : List Told) → EndsWriting (Runs end step) result
        (stage_of playing.old (C.route carrier.now outside.old) text)
        (stage_of playing.new (C.route carrier.now outside.new) text) (K.held out.old) (K.held out.new) }
    ensures caused { IsCaused (result ≡ Err Stop.WireFailed) (C.faults outside.old) (C.faults outside.new)
        (C.never_fails outside.old) (C.never_fails outside.new) }
    ensures sink_caused { IsCaused (result ≡ Err (Stop.Cut IoFault.Failed)) (K.faults out.old) (K.faults out.new)
        (K.never_fails out.old) (K.never_fails out.new) }
{
    if end < playing.world.moment() {
        return Err(Stop::Refused(PAST));
    }
    while playing.world.moment() < end {
        round(playing, alloc, out, carrier, outside, end, step)?;
    }
    Ok(())
}
