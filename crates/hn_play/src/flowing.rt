//! `flow`: the copies that wait are treated.

ghost use Rattle.std.specs.Prelude.{◌≡◌, ◌≢◌, ◌<◌, ◌≤◌, ◌%◌, ◌||◌, ◌==◌, ℕ, suc, List, Err, OnOk, nat_lt, length, Some, if◌then◌else◌};
ghost use Rattle.std.specs.List.{slice_get};
ghost use Rattle.hn_io.specs.Faults.{IsCaused};
ghost use Rattle.hn_world.specs.declared.copies.MailCopy.{MailCopy};
ghost use Rattle.hn_world.specs.Waiting.{first_waiting};
ghost use Rattle.hn_play.specs.declared.end.Stop.{Stop};
ghost use Rattle.hn_play.specs.Ended.{Ended};
ghost use Rattle.hn_play.specs.Events.{TreatmentEnds, CopyEnds, Flow, drawn, is_lost};
ghost use Rattle.hn_play.specs.Stage.{Route, stage_of, stream_words};
ghost use Rattle.hn_play.specs.Told.{Told};

use crate::carrying::Carrier;
use crate::delivery::deliver;
use crate::end::{Stop, stopping};
use crate::playing::Playing;
use hn_io::{Draw, IoFault};
use hn_world::WEvent;
use std::alloc::Global;

/// Whether a copy that could be delivered is lost: with a loss above 0, a word decides.
fn loses(playing: &mut Playing) -> bool
    ensures world { playing.new.world ≡ playing.old.world }
    ensures loss { playing.new.loss ≡ playing.old.loss }
    ensures senders { playing.new.senders ≡ playing.old.senders }
    ensures words { stream_words playing.new.words ≡ (if playing.old.loss == 0 then stream_words playing.old.words
        else (λ place. stream_words playing.old.words (suc place))) }
    ensures lost { result ≡ nat_lt (stream_words playing.old.words 0 % 100) playing.old.loss }
{
    playing.loss > 0 && playing.words.next() % 100 < u32::from(playing.loss)
}

/// Whether a copy that waits is dropped; the word that decides is drawn.
fn is_lost(playing: &mut Playing, copy: u64) -> bool
    ensures trace { playing.new.world ≡ playing.old.world }
    ensures lost { (route : Route) (text : List Told) (place : ℕ) (c : MailCopy) → copy ≡ suc place
        → slice_get playing.old.world.parts.copies place ≡ Some c
        → (result ≡ is_lost (stage_of playing.old route text) c) × (stage_of playing.new route text ≡ drawn (stage_of playing.old route text) c) }
{
    playing.world.is_away(copy) || loses(playing)
}

/// A copy is dropped or delivered.
fn treat<W, C: Carrier<W>>(
    playing: &mut Playing,
    alloc: Global,
    carrier: &C,
    outside: &mut W,
    copy: u64,
    lost: bool,
) -> Result<(), Stop>
    ensures ends { (text : List Told) → Ended (TreatmentEnds lost copy) result
        (stage_of playing.old (C.route carrier.now outside.old) text)
        (stage_of playing.new (C.route carrier.now outside.new) text) }
    ensures entered { OnOk result ((length playing.old.world.parts.trace < 1000000)
        × (length playing.old.world.parts.trace < length playing.new.world.parts.trace)) }
    ensures caused { IsCaused (result ≡ Err Stop.WireFailed) (C.faults outside.old) (C.faults outside.new)
        (C.never_fails outside.old) (C.never_fails outside.new) }
{
    if lost {
        return stopping(playing.event(alloc, WEvent::Drop { copy }));
    }
    let _notes = deliver(playing, alloc, carrier, outside, copy)?;
    Ok(())
}

/// The first copy that waits is treated; it has this number.
fn treat_first<W, C: Carrier<W>>(
    playing: &mut Playing,
    alloc: Global,
    carrier: &C,
    outside: &mut W,
    copy: u64,
) -> Result<(), Stop>
    requires { (place : ℕ) × (first_waiting playing.old.world.parts.copies ≡ Some place) × (copy ≡ suc place) }
    ensures ends { (text : List Told) → Ended CopyEnds result (stage_of playing.old (C.route carrier.now outside.old) text)
        (stage_of playing.new (C.route carrier.now outside.new) text) }
    ensures entered { OnOk result ((length playing.old.world.parts.trace < 1000000)
        × (length playing.old.world.parts.trace < length playing.new.world.parts.trace)) }
    ensures caused { IsCaused (result ≡ Err Stop.WireFailed) (C.faults outside.old) (C.faults outside.new)
        (C.never_fails outside.old) (C.never_fails outside.new) }
{
    let lost = is_lost(playing, copy);
    treat(playing, alloc, carrier, outside, copy, lost)
}

/// All copies that wait are treated, new ones included.
///
/// # Errors
///
/// An event is refused, the wire failed, or memory ended.
pub fn flow<W, C: Carrier<W>>(
    playing: &mut Playing,
    alloc: Global,
    carrier: &C,
    outside: &mut W,
) -> Result<(), Stop>
    ensures ends { (text : List Told) → Ended Flow result (stage_of playing.old (C.route carrier.now outside.old) text)
        (stage_of playing.new (C.route carrier.now outside.new) text) }
    ensures unwritten { result ≢ Err (Stop.Cut IoFault.Failed) }
    ensures entered { OnOk result (length playing.old.world.parts.trace ≤ length playing.new.world.parts.trace) }
    ensures caused { IsCaused (result ≡ Err Stop.WireFailed) (C.faults outside.old) (C.faults outside.new)
        (C.never_fails outside.old) (C.never_fails outside.new) }
{
    while let Some(copy) = playing.world.next_waiting() {
        treat_first(playing, alloc, carrier, outside, copy)?;
    }
    Ok(())
}
