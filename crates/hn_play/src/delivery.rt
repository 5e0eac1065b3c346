//! Deliveries: by mail, or over a wire.

ghost use Rattle.std.specs.Prelude.{◌≡◌, ◌≢◌, ◌<◌, List, None, Some, Err, OnOk, length};
ghost use Rattle.hn_io.specs.Faults.{IsCaused};
ghost use Rattle.hn_world.specs.declared.copies.MailCopy.{MailCopy};
ghost use Rattle.hn_world.specs.declared.event.WEvent.TheVariants as event;
ghost use Rattle.hn_world.specs.Refusal.{refusal, copy_at};
ghost use Rattle.hn_play.specs.declared.end.Stop.{Stop};
ghost use Rattle.hn_play.specs.Delivery.{Replaces, IsReplaced, ComesTo, ComesToSome, Conveys, DeliveryEnds, Delivers, injection_for};
ghost use Rattle.hn_play.specs.Ended.{IsAnsweredWith, EndsWith};
ghost use Rattle.hn_play.specs.Stage.{Route, stage_of};
ghost use Rattle.hn_play.specs.Told.{Told};

use crate::carrying::{Carried, Carrier};
use crate::end::{Stop, stopping};
use crate::playing::Playing;
use hn_base::{Bytes, Sequence};
use hn_io::IoFault;
use hn_rules::Note;
use hn_world::{WEvent, WorldFault, always_within_limits};
use std::alloc::Global;

/// A copy is dropped, and other bytes are injected in its place. Answers what routers noted of these.
fn replace(
    playing: &mut Playing,
    alloc: Global,
    copy: u64,
    bytes: Bytes,
) -> Result<Sequence<Note>, WorldFault>
    requires { copy_at playing.old.world.parts copy ≢ None }
    ensures ends { (route : Route) (text : List Told) (c : MailCopy) → copy_at playing.old.world.parts copy ≡ Some c
        → IsAnsweredWith (λ notes. Replaces copy (injection_for playing.old.world.parts c bytes) notes None) (IsReplaced copy (injection_for playing.old.world.parts c bytes))
        result (stage_of playing.old route text) (stage_of playing.new route text) }
    ensures entered { OnOk result ((length playing.old.world.parts.trace < 1000000)
        × (length playing.old.world.parts.trace < length playing.new.world.parts.trace)) }
{
    let Some(info) = playing.world.copy_info(copy) else {
        unreachable!()
    };
    playing.event(alloc, WEvent::Drop { copy })?;
    let other = WEvent::Inject {
        name: info.to,
        endpoint: info.endpoint,
        from: info.from,
        multicast: info.multicast,
        bytes,
    };
    playing.noted(alloc, other)
}

/// What came of a copy that was carried decides what happens.
fn come_to(
    playing: &mut Playing,
    alloc: Global,
    copy: u64,
    carried: Carried,
) -> Result<Sequence<Note>, WorldFault>
    requires { copy_at playing.old.world.parts copy ≢ None }
    ensures ends { (route : Route) (text : List Told) (c : MailCopy) → copy_at playing.old.world.parts copy ≡ Some c
        → IsAnsweredWith (λ notes. ComesTo copy c carried notes None) (ComesToSome copy c carried)
        result (stage_of playing.old route text) (stage_of playing.new route text) }
    ensures entered { OnOk result ((length playing.old.world.parts.trace < 1000000)
        × (length playing.old.world.parts.trace < length playing.new.world.parts.trace)) }
{
    match carried {
        Carried::Same => playing.noted(alloc, WEvent::Deliver { copy }),
        Carried::Lost => playing.noted(alloc, WEvent::Drop { copy }),
        Carried::Other(bytes) => replace(playing, alloc, copy, bytes),
    }
}

/// A copy is carried, and what came of it decides what happens.
fn convey<W, C: Carrier<W>>(
    playing: &mut Playing,
    alloc: Global,
    carrier: &C,
    outside: &mut W,
    copy: u64,
) -> Result<Sequence<Note>, Stop>
    requires { refusal playing.old.world.parts (event.Deliver copy) ≡ None }
    ensures ends { (text : List Told) → EndsWith (Conveys copy) (Delivers copy)
        result (stage_of playing.old (C.route carrier.now outside.old) text) (stage_of playing.new (C.route carrier.now outside.new) text) }
    ensures entered { OnOk result ((length playing.old.world.parts.trace < 1000000)
        × (length playing.old.world.parts.trace < length playing.new.world.parts.trace)) }
    ensures caused { IsCaused (result ≡ Err Stop.WireFailed) (C.faults outside.old) (C.faults outside.new)
        (C.never_fails outside.old) (C.never_fails outside.new) }
{
    always_within_limits();
    playing.world.is_replayed();
    let Some(bytes) = playing.world.copy_bytes(copy) else {
        unreachable!()
    };
    match carrier.carry(alloc, outside, &mut playing.room, bytes) {
        Ok(carried) => stopping(come_to(playing, alloc, copy, carried)),
        Err(IoFault::Failed) => Err(Stop::WireFailed),
        Err(IoFault::NoMemory) => Err(Stop::Cut(IoFault::NoMemory)),
    }
}

/// A copy is delivered. Answers what routers noted. Nothing is carried where the delivery is refused.
///
/// # Errors
///
/// The delivery is refused, the wire failed, or memory ended.
pub fn deliver<W, C: Carrier<W>>(
    playing: &mut Playing,
    alloc: Global,
    carrier: &C,
    outside: &mut W,
    copy: u64,
) -> Result<Sequence<Note>, Stop>
    ensures ends { (text : List Told) → EndsWith (DeliveryEnds copy) (Delivers copy)
        result (stage_of playing.old (C.route carrier.now outside.old) text) (stage_of playing.new (C.route carrier.now outside.new) text) }
    ensures entered { OnOk result ((length playing.old.world.parts.trace < 1000000)
        × (length playing.old.world.parts.trace < length playing.new.world.parts.trace)) }
    ensures caused { IsCaused (result ≡ Err Stop.WireFailed) (C.faults outside.old) (C.faults outside.new)
        (C.never_fails outside.old) (C.never_fails outside.new) }
{
    if let Some(code) = playing.world.refusal(&WEvent::Deliver { copy }) {
        return Err(Stop::Refused(code));
    }
    convey(playing, alloc, carrier, outside, copy)
}
