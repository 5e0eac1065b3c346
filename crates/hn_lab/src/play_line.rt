ghost use Rattle.std.specs.Prelude.{◌≡◌, ◌≢◌, ℕ, List, None, Err, IsSome, IsTrue};
ghost use Rattle.hn_base.specs.declared.version.Version.{Version};
ghost use Rattle.hn_io.specs.Faults.{IsCaused};
ghost use Rattle.hn_script.specs.Laws.{IsLimited};
ghost use Rattle.hn_script.specs.Line.{IsOfVersion};
ghost use Rattle.hn_script.specs.declared.line.Line.TheVariants as a_line;
ghost use Rattle.hn_play.specs.declared.end.Stop.{Stop};
ghost use Rattle.hn_play.specs.Ended.{IsAnsweredLeaving, EndsLeaving, Leaves};
ghost use Rattle.hn_lab.specs.Line.{LineEnds, EndsAs, OtherEnds, event_of, report_of, is_act};
ghost use Rattle.hn_play.specs.Stage.{Route, stage_of};
ghost use Rattle.hn_play.specs.Told.{Told};
ghost use Rattle.hn_play.specs.Writing.{EndsWriting};

use crate::choosing::{address, ula};
use crate::of_line::{event_of, injection, report_of};
use crate::report::reported;
use crate::soliciting::{radv, solicit};
use crate::syncing::sync;
use hn_base::{Bytes, EpId, Name};
use hn_io::{IoFault, Sink};
use hn_play::{Carrier, Playing, Stop, Stream, deliver, flow, happen, note_lines, run, stopping};
use hn_script::{How, Line};
use hn_streams::{Lines, write_lines};
use hn_world::WorldFault;
use std::alloc::Global;

fn seed(playing: &mut Playing, alloc: Global, seed: u64) -> Lines
    ensures { (route : Route) (text : List Told) → Leaves (OtherEnds (a_line.Seed seed)) result (stage_of playing.old route text)
        (stage_of playing.new route text) }
{
    playing.words = Stream::of_seed(seed);
    Lines::new(alloc)
}

fn lose(playing: &mut Playing, alloc: Global, percent: u8) -> Lines
    ensures { (route : Route) (text : List Told) → Leaves (OtherEnds (a_line.Loss percent)) result
        (stage_of playing.old route text) (stage_of playing.new route text) }
{
    playing.loss = percent;
    Lines::new(alloc)
}

fn flow_all<W, C: Carrier<W>>(
    playing: &mut Playing,
    alloc: Global,
    carrier: &C,
    outside: &mut W,
) -> Result<Lines, Stop>
    ensures ends { (text : List Told) → EndsLeaving (OtherEnds a_line.Flow) result
        (stage_of playing.old (C.route carrier.now outside.old) text)
        (stage_of playing.new (C.route carrier.now outside.new) text) }
    ensures caused { IsCaused (result ≡ Err Stop.WireFailed) (C.faults outside.old) (C.faults outside.new)
        (C.never_fails outside.old) (C.never_fails outside.new) }
{
    flow(playing, alloc, carrier, outside)?;
    Ok(Lines::new(alloc))
}

/// A copy is delivered, and what its router notes comes up.
fn delivered<W, C: Carrier<W>>(
    playing: &mut Playing,
    alloc: Global,
    carrier: &C,
    outside: &mut W,
    copy: u64,
) -> Result<Lines, Stop>
    ensures ends { (text : List Told) → EndsLeaving (OtherEnds (a_line.Deliver copy)) result
        (stage_of playing.old (C.route carrier.now outside.old) text)
        (stage_of playing.new (C.route carrier.now outside.new) text) }
    ensures caused { IsCaused (result ≡ Err Stop.WireFailed) (C.faults outside.old) (C.faults outside.new)
        (C.never_fails outside.old) (C.never_fails outside.new) }
{
    let name = playing.world.copy_info(copy).map(|info| info.to);
    let notes = deliver(playing, alloc, carrier, outside, copy)?;
    Ok(note_lines(alloc, name, notes.as_slice())?)
}

/// A datagram is injected, and what its router notes comes up.
fn inject(
    playing: &mut Playing,
    alloc: Global,
    name: Name,
    endpoint: EpId,
    how: How,
    bytes: Bytes,
) -> Result<Lines, WorldFault>
    ensures { (route : Route) (text : List Told) → IsAnsweredLeaving (OtherEnds (a_line.Inject name endpoint how bytes)) result
        (stage_of playing.old route text) (stage_of playing.new route text) }
{
    let event = injection(name, endpoint, how, bytes);
    let notes = playing.noted(alloc, event)?;
    Ok(note_lines(alloc, Some(name), notes.as_slice())?)
}

/// What is done in the world: a line that is no event of which no note comes up, and uses neither a wire nor a sink.
fn act(playing: &mut Playing, alloc: Global, line: Line) -> Result<Lines, WorldFault>
    requires act { IsTrue (is_act line) }
    ensures { (route : Route) (text : List Told) → IsAnsweredLeaving (OtherEnds line) result (stage_of playing.old route text)
        (stage_of playing.new route text) }
{
    match line {
        Line::Inject(name, endpoint, how, bytes) => {
            inject(playing, alloc, name, endpoint, how, bytes)
        }
        Line::Address(name) => address(playing, alloc, name),
        Line::Ula(name) => ula(playing, alloc, name),
        Line::Sync(a, b) => sync(playing, alloc, &a, &b),
        Line::Radv(name, endpoint) => radv(playing, alloc, name, endpoint),
        Line::Solicit(name, endpoint) => solicit(playing, alloc, &name, endpoint),
        _ => unreachable!(),
    }
}

/// A line that is neither an event of which no note comes up, nor a report, nor a run.
fn other<W, C: Carrier<W>>(
    playing: &mut Playing,
    alloc: Global,
    carrier: &C,
    outside: &mut W,
    line: Line,
) -> Result<Lines, Stop>
    requires other { event_of line ≡ None }
    requires no_report { report_of line ≡ None }
    requires no_run { (end step : ℕ) → line ≢ a_line.Run end step }
    ensures ends { (text : List Told) → EndsLeaving (OtherEnds line) result
        (stage_of playing.old (C.route carrier.now outside.old) text)
        (stage_of playing.new (C.route carrier.now outside.new) text) }
    ensures caused { IsCaused (result ≡ Err Stop.WireFailed) (C.faults outside.old) (C.faults outside.new)
        (C.never_fails outside.old) (C.never_fails outside.new) }
{
    match line {
        Line::Seed(number) => Ok(seed(playing, alloc, number)),
        Line::Loss(percent) => Ok(lose(playing, alloc, percent)),
        Line::Deliver(copy) => delivered(playing, alloc, carrier, outside, copy),
        Line::Flow => flow_all(playing, alloc, carrier, outside),
        line => stopping(act(playing, alloc, line)),
    }
}

/// What comes up in a line that is neither an event of which no note comes up nor a run.
fn said<W, C: Carrier<W>>(
    playing: &mut Playing,
    alloc: Global,
    carrier: &C,
    outside: &mut W,
    line: Line,
) -> Result<Lines, Stop>
    requires other { event_of line ≡ None }
    requires no_run { (end step : ℕ) → line ≢ a_line.Run end step }
    ensures ends { (text : List Told) → EndsLeaving (EndsAs line (report_of line)) result
        (stage_of playing.old (C.route carrier.now outside.old) text)
        (stage_of playing.new (C.route carrier.now outside.new) text) }
    ensures looks { IsSome (report_of line) → playing.new ≡ playing.old }
    ensures caused { IsCaused (result ≡ Err Stop.WireFailed) (C.faults outside.old) (C.faults outside.new)
        (C.never_fails outside.old) (C.never_fails outside.new) }
{
    match report_of(&line) {
        Some(asked) => stopping(reported(alloc, &playing.world, &asked)),
        None => other(playing, alloc, carrier, outside, line),
    }
}

/// The same, and what comes up is written.
fn told<K: Sink, W, C: Carrier<W>>(
    playing: &mut Playing,
    alloc: Global,
    out: &mut K,
    carrier: &C,
    outside: &mut W,
    line: Line,
) -> Result<(), Stop>
    requires other { event_of line ≡ None }
    requires no_run { (end step : ℕ) → line ≢ a_line.Run end step }
    ensures ends { (text : List Told) → EndsWriting (EndsAs line (report_of line)) result
        (stage_of playing.old (C.route carrier.now outside.old) text)
        (stage_of playing.new (C.route carrier.now outside.new) text) (K.held out.old) (K.held out.new) }
    ensures looks { IsSome (report_of line) → playing.new ≡ playing.old }
    ensures caused { IsCaused (result ≡ Err Stop.WireFailed) (C.faults outside.old) (C.faults outside.new)
        (C.never_fails outside.old) (C.never_fails outside.new) }
    ensures sink_caused { IsCaused (result ≡ Err (Stop.Cut IoFault.Failed)) (K.faults out.old) (K.faults out.new)
        (K.never_fails out.old) (K.never_fails out.new) }
{
    let lines = said(playing, alloc, carrier, outside, line)?;
    Ok(write_lines(out, &lines)?)
}

/// A line of a script of some version. Each line of text is written right when it comes up. A report changes nothing but the
/// text, also where memory ended.
///
/// # Errors
///
/// The line is refused, the wire or the sink failed, or memory ended.
pub(crate) fn play_line<K: Sink, W, C: Carrier<W>>(
    playing: &mut Playing,
    alloc: Global,
    out: &mut K,
    carrier: &C,
    outside: &mut W,
    line: Line,
) -> Result<(), Stop>
    requires limited { IsLimited line }
    requires known { (version : Version) × IsOfVersion version line }
    ensures ends { (text : List Told) → EndsWriting (LineEnds line) result
        (stage_of playing.old (C.route carrier.now outside.old) text)
        (stage_of playing.new (C.route carrier.now outside.new) text) (K.held out.old) (K.held out.new) }
    ensures looks { IsSome (report_of line) → playing.new ≡ playing.old }
    ensures caused { IsCaused (result ≡ Err Stop.WireFailed) (C.faults outside.old) (C.faults outside.new)
        (C.never_fails outside.old) (C.never_fails outside.new) }
    ensures sink_caused { IsCaused (result ≡ Err (Stop.Cut IoFault.Failed)) (K.faults out.old) (K.faults out.new)
        (K.never_fails out.old) (K.never_fails out.new) }
{
    match event_of(line) {
        Ok(event) => happen(playing, alloc, out, event),
        Err(Line::Run(end, step)) => run(playing, alloc, out, carrier, outside, end, step),
        Err(line) => told(playing, alloc, out, carrier, outside, line),
    }
}
