//! The log of a world: its trace, event by event.

ghost use Rattle.std.specs.Prelude.{◌≡◌, ◌++◌, ℕ, List, Err, IfOk, IfErr, OnOk, length, string_bytes};
ghost use Rattle.std.specs.Io.KnownBytes.{Appends};
ghost use Rattle.hn_io.specs.Faults.{IsCaused};
ghost use Rattle.hn_rules.specs.declared.done.Note.{Note as ANote};
ghost use Rattle.hn_world.specs.declared.parts.Parts.{Parts};
ghost use Rattle.hn_world.specs.Step.{Step};
ghost use Rattle.hn_look.specs.Log.{IsStepText, IsLog, AtMostOneLog};
ghost use Rattle.hn_streams.specs.Output.{AppendsCut};

use crate::copied::copied;
use crate::step_text::{Made, push_step};
use hn_base::{NoMemory, Sequence};
use hn_io::{IoFault, Listed, Sink};
use hn_rules::Note;
use hn_streams::{pieces_append, write_piece};
use hn_world::{Traced, World, WorldFault, step_is_unique};
use std::alloc::Global;

/// A world has at most one log.
pub fn at_most_one_log()
    ensures { AtMostOneLog }
{
    step_is_unique();
}

/// Lets an event of a trace happen again, with the words that it took, where it is a step from this world. Answers what
/// routers noted.
fn again(alloc: Global, traced: &Traced, replay: &mut World) -> Result<Sequence<Note>, NoMemory>
    requires { (notes : List ANote) × (after : Parts) × Step traced.now notes replay.old.parts after }
    ensures { (notes : List ANote) (after : Parts) → Step traced.now notes replay.old.parts after
        → IfOk result (λ noted. (noted ≡ notes) × (replay.new.parts ≡ after)) }
{
    step_is_unique();
    let mut words = Listed::new(traced.words.copy(alloc)?.into_vec());
    let event = copied(alloc, &traced.event)?;
    match replay.apply(alloc, event, &mut words) {
        Ok(notes) => Ok(notes),
        Err(WorldFault::Refused(_)) => unreachable!(),
        Err(WorldFault::NoMemory) => Err(NoMemory),
    }
}

/// The same, and adds what is told of it.
fn push_again(
    alloc: Global,
    text: &mut String,
    traced: &Traced,
    replay: &mut World,
) -> Result<(), NoMemory>
    requires { (notes : List ANote) × (after : Parts) × Step traced.now notes replay.old.parts after }
    ensures same { (notes : List ANote) (after : Parts) → Step traced.now notes replay.old.parts after → OnOk result (replay.new.parts ≡ after) }
    ensures told { OnOk result ((more : List ℕ) × IsStepText traced.now replay.old.parts replay.new.parts more
        × (string_bytes text.new ≡ string_bytes text.old ++ more)) }
{
    let before = Made::of(replay);
    let notes = again(alloc, traced, replay)?;
    push_step(alloc, text, &traced.event, notes.as_slice(), before, replay)?;
    Ok(())
}

/// Writes the log of a world with this trace, an event at a time: the trace is replayed in a world of the same version.
fn write_trace<K: Sink>(
    alloc: Global,
    world: &World,
    trace: &[Traced],
    out: &mut K,
) -> Result<(), IoFault>
    requires { trace.now ≡ world.now.parts.trace }
    ensures written { OnOk result ((text : List ℕ) × IsLog world.now.parts text × Appends (K.held out.old) (K.held out.new) text) }
    ensures cut { IfErr result (λ fault. (text : List ℕ) × IsLog world.now.parts text × AppendsCut fault (K.held out.old) (K.held out.new) text) }
    ensures caused { IsCaused (result ≡ Err IoFault.Failed) (K.faults out.old) (K.faults out.new)
        (K.never_fails out.old) (K.never_fails out.new) }
{
    pieces_append();
    world.is_replayed();
    let mut replay = World::without_trace(alloc, world.language_version());
    let mut text = String::new(alloc);
    for traced in trace {
        text.clear();
        let Ok(()) = push_again(alloc, &mut text, traced, &mut replay) else {
            return Err(IoFault::NoMemory);
        };
        write_piece(out, text.as_bytes())?;
    }
    Ok(())
}

/// Writes the log of a world that keeps or records its trace.
///
/// # Errors
///
/// `Failed` if and only if the count of faults of the sink rose; else out of memory, as also where the world has no trace to read.
/// After either a front of the log was written.
pub fn write_log<K: Sink>(alloc: Global, world: &World, out: &mut K) -> Result<(), IoFault>
    ensures written { OnOk result ((text : List ℕ) × IsLog world.now.parts text × Appends (K.held out.old) (K.held out.new) text) }
    ensures cut { IfErr result (λ fault. (text : List ℕ) × IsLog world.now.parts text × AppendsCut fault (K.held out.old) (K.held out.new) text) }
    ensures caused { IsCaused (result ≡ Err IoFault.Failed) (K.faults out.old) (K.faults out.new)
        (K.never_fails out.old) (K.never_fails out.new) }
{
    world.is_replayed();
    match world.recorded() {
        Some(trace) => write_trace(alloc, world, trace, out),
        None => Err(IoFault::NoMemory),
    }
}
