//! Router Advertisements that are sent in time.

ghost use Rattle.std.specs.Prelude.{◌≡◌, ◌≢◌, ◌≤◌, ◌<◌, List, Some, Err, IfOk, OnOk, length, string_bytes};
ghost use Rattle.std.specs.List.{slice_get};
ghost use Rattle.hn_io.specs.Faults.{IsCaused};
ghost use Rattle.hn_world.specs.Step.{IsWorldEventInRange};
ghost use Rattle.hn_world.specs.declared.event.WEvent.TheVariants as an_event;
ghost use Rattle.hn_play.specs.declared.end.Stop.{Stop};
ghost use Rattle.hn_senders.specs.declared.senders.Sending.{Sending};
ghost use Rattle.hn_play.specs.Delivery.{EventEnds};
ghost use Rattle.hn_play.specs.Ended.{IsAnswered, Leaves};
ghost use Rattle.hn_play.specs.Following.{Follows, Sets};
ghost use Rattle.hn_play.specs.Process.{ThenProcess, EachProcess};
ghost use Rattle.hn_play.specs.Sending.{ra_line, IsAsked, IsDue, TurnEnds, TickEnds, ended_sending, ending_all};
ghost use Rattle.hn_play.specs.Stage.{Route, stage_of};
ghost use Rattle.hn_play.specs.Told.{Told};
ghost use Rattle.hn_play.specs.Writing.{EndsWriting};

use crate::end::{Stop, stopping};
use crate::playing::Playing;
use hn_advert::bytes;
use hn_base::{EpId, Hex, Moment, Name, NoMemory};
use hn_io::{IoFault, Sink};
use hn_radv::Sender;
use hn_senders::Shape;
use hn_streams::{Lines, write_lines};
use hn_world::{WEvent, WorldFault};
use std::alloc::{AllocError, Global};

/// The line on a Router Advertisement that is sent.
fn ra_line(
    alloc: Global,
    name: &Name,
    endpoint: EpId,
    now: Moment,
    bytes: &[u8],
) -> Result<String, AllocError>
    ensures { IfOk result (λ line. string_bytes line ≡ ra_line name.now endpoint now bytes.now) }
{
    let EpId(e) = endpoint;
    let bytes = Hex(bytes);
    format!(in alloc; "ra {name} {e} {now} {bytes}\n")
}

/// When that at a place sends, where this is the shape of its advertisement now.
fn asked(playing: &Playing, place: usize, shape: &Shape) -> Sender
    requires { place < length playing.now.senders }
    ensures { (sending : Sending) → slice_get playing.now.senders place ≡ Some sending
        → IsAsked playing.now.world.parts.moment shape.now sending result }
{
    let sending = playing.senders.at(place);
    let mut sender = sending.sender;
    if !sending.sent_last(shape) {
        sender.changed(playing.world.moment());
    }
    sender
}

/// That at a place has its turn: whether it sends now.
fn is_due(playing: &mut Playing, place: usize, shape: Shape) -> bool
    requires { place < length playing.old.senders }
    ensures due { (route : Route) (text : List Told) (sending : Sending) → slice_get playing.old.senders place ≡ Some sending
        → IsDue place sending shape result (stage_of playing.old route text) (stage_of playing.new route text) }
    ensures world { playing.new.world ≡ playing.old.world }
{
    let mut sender = asked(playing, place, &shape);
    if !sender.due(playing.world.moment(), &mut playing.words) {
        playing.senders.set(place, sender);
        return false;
    }
    playing.senders.sent(place, sender, shape);
    true
}

/// That of an endpoint has its turn, if there is one. Answers the line that comes up, if it sends.
fn take_turn(
    playing: &mut Playing,
    alloc: Global,
    name: &Name,
    endpoint: EpId,
) -> Result<Lines, NoMemory>
    ensures ends { (route : Route) (text : List Told) → IfOk result
        (λ lines. Leaves (TurnEnds name.now endpoint) lines (stage_of playing.old route text) (stage_of playing.new route text)) }
    ensures world { playing.new.world ≡ playing.old.world }
{
    let Some(router) = playing.world.router(name) else {
        return Ok(Lines::new(alloc));
    };
    let Some(place) = playing.senders.place_of(name, endpoint) else {
        return Ok(Lines::new(alloc));
    };
    let advert = router.advertisement(alloc, endpoint)?;
    let bytes = bytes(alloc, &advert)?;
    let shape = Shape::of(alloc, &advert)?;
    if !is_due(playing, place, shape) {
        return Ok(Lines::new(alloc));
    }
    let now = playing.world.moment();
    let line = ra_line(alloc, name, endpoint, now, bytes.as_slice())?;
    Ok(Lines::of(alloc, line)?)
}

/// The same, and what comes up is written.
fn turn<K: Sink>(
    playing: &mut Playing,
    alloc: Global,
    out: &mut K,
    name: &Name,
    endpoint: EpId,
) -> Result<(), Stop>
    ensures ends { (route : Route) (text : List Told) → EndsWriting (TurnEnds name.now endpoint) result
        (stage_of playing.old route text) (stage_of playing.new route text) (K.held out.old) (K.held out.new) }
    ensures unbroken { result ≢ Err Stop.WireFailed }
    ensures world { playing.new.world ≡ playing.old.world }
    ensures sink_caused { IsCaused (result ≡ Err (Stop.Cut IoFault.Failed)) (K.faults out.old) (K.faults out.new)
        (K.never_fails out.old) (K.never_fails out.new) }
{
    let lines = take_turn(playing, alloc, name, endpoint)?;
    Ok(write_lines(out, &lines)?)
}

/// Those of these endpoints have their turns, one after another.
fn turns<K: Sink>(
    playing: &mut Playing,
    alloc: Global,
    out: &mut K,
    name: &Name,
    endpoints: &[EpId],
) -> Result<(), Stop>
    ensures ends { (route : Route) (text : List Told) → EndsWriting (EachProcess (TurnEnds name.now) endpoints.now) result
        (stage_of playing.old route text) (stage_of playing.new route text) (K.held out.old) (K.held out.new) }
    ensures unbroken { result ≢ Err Stop.WireFailed }
    ensures world { playing.new.world ≡ playing.old.world }
    ensures sink_caused { IsCaused (result ≡ Err (Stop.Cut IoFault.Failed)) (K.faults out.old) (K.faults out.new)
        (K.never_fails out.old) (K.never_fails out.new) }
{
    for endpoint in endpoints {
        turn(playing, alloc, out, name, *endpoint)?;
    }
    Ok(())
}

/// A router ticks; then each of its endpoints that send has its turn, in ascending order.
pub(crate) fn tick<K: Sink>(
    playing: &mut Playing,
    alloc: Global,
    out: &mut K,
    name: Name,
) -> Result<(), Stop>
    ensures ends { (route : Route) (text : List Told) → EndsWriting (TickEnds name) result (stage_of playing.old route text)
        (stage_of playing.new route text) (K.held out.old) (K.held out.new) }
    ensures unbroken { result ≢ Err Stop.WireFailed }
    ensures entered { OnOk result (length playing.old.world.parts.trace ≤ length playing.new.world.parts.trace) }
    ensures sink_caused { IsCaused (result ≡ Err (Stop.Cut IoFault.Failed)) (K.faults out.old) (K.faults out.new)
        (K.never_fails out.old) (K.never_fails out.new) }
{
    stopping(playing.event(alloc, WEvent::Tick { name }))?;
    let endpoints = playing.senders.endpoints_of(alloc, &name)?;
    turns(playing, alloc, out, &name, &endpoints)
}

/// An endpoint is detached, and sends no more.
fn detach(
    playing: &mut Playing,
    alloc: Global,
    name: Name,
    endpoint: EpId,
) -> Result<(), WorldFault>
    ensures { (route : Route) (text : List Told) → IsAnswered
        (ThenProcess (EventEnds (an_event.Detach name endpoint)) (Sets (ended_sending name endpoint))) result
        (stage_of playing.old route text) (stage_of playing.new route text) }
{
    playing.event(alloc, WEvent::Detach { name, endpoint })?;
    playing.senders.end(&name, endpoint);
    Ok(())
}

/// An event of a router, after which it sends no more.
fn silence(
    playing: &mut Playing,
    alloc: Global,
    event: WEvent,
    name: Name,
) -> Result<(), WorldFault>
    requires { IsWorldEventInRange event }
    ensures { (route : Route) (text : List Told) → IsAnswered (ThenProcess (EventEnds event) (Sets (ending_all name))) result
        (stage_of playing.old route text) (stage_of playing.new route text) }
{
    playing.event(alloc, event)?;
    playing.senders.end_all(&name);
    Ok(())
}

/// An event of which no note comes up, and what follows it.
pub fn happen<K: Sink>(
    playing: &mut Playing,
    alloc: Global,
    out: &mut K,
    event: WEvent,
) -> Result<(), Stop>
    requires { IsWorldEventInRange event }
    ensures ends { (route : Route) (text : List Told) → EndsWriting (ThenProcess (EventEnds event) (Follows event)) result
        (stage_of playing.old route text) (stage_of playing.new route text) (K.held out.old) (K.held out.new) }
    ensures unbroken { result ≢ Err Stop.WireFailed }
    ensures sink_caused { IsCaused (result ≡ Err (Stop.Cut IoFault.Failed)) (K.faults out.old) (K.faults out.new)
        (K.never_fails out.old) (K.never_fails out.new) }
{
    match event {
        WEvent::Tick { name } => tick(playing, alloc, out, name),
        WEvent::Detach { name, endpoint } => stopping(detach(playing, alloc, name, endpoint)),
        WEvent::Stop { name } => stopping(silence(playing, alloc, WEvent::Stop { name }, name)),
        WEvent::Start { name } => stopping(silence(playing, alloc, WEvent::Start { name }, name)),
        event => stopping(playing.event(alloc, event)),
    }
}
