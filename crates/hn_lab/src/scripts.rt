ghost use Rattle.std.specs.Prelude.{◌≡◌, ◌≢◌, ◌↔◌, ◌+◌, ◌^◌, ◌≤◌, ◌⊎◌, ℕ, List, [], ◌∷◌, None, Some, Ok, Err, length, Contains, IsSome, IfSome};
ghost use Rattle.std.specs.Io.KnownBytes.{Appends, Consumes};
ghost use Rattle.std.specs.List.{AllByRecursion};
ghost use Rattle.hn_io.specs.Faults.{IsCaused};
ghost use Rattle.hn_script.specs.Laws.{IsLimited};
ghost use Rattle.hn_script.specs.Line.{IsOfVersion};
ghost use Rattle.hn_streams.specs.Refusal.{refused_line};
ghost use Rattle.hn_world.specs.SeenWorld.{world_parts};
ghost use Rattle.hn_world.specs.Replay.{IsReplayed};
ghost use Rattle.hn_play.specs.declared.end.End.TheVariants as ends;
ghost use Rattle.hn_lab.specs.Lab.{play_status, Plays, IsLineWritten, IsLabOf, IsLabRun, StatusOfScript, HasDonePlay, HasRefusal};
ghost use Rattle.hn_play.specs.Stage.{Mail as ByMail, route_of};
ghost use Rattle.hn_lab.specs.Transcripts.{IsLabTranscript, AppendsTranscript};

use crate::existing::{lab_is_of_transcript, play_is_of_transcript};
use crate::laws::at_most_one_play;
use crate::play_lines::play_lines;
use hn_io::{IoFault, Sink, Source};
use hn_play::{Carrier, End, Mail, OverWire, Playing};
use hn_script::{
    ParseFault, Script, ScriptFault, fault_excludes_script, lines_are_of_version, parse,
    script_is_limited, script_is_unique,
};
use hn_streams::{read_all, write_refusal};
pub use hn_streams::{DONE, NO_MEMORY, REFUSED, SINK_FAILED, SOURCE_FAILED, WIRE_FAILED};
use hn_wire::{MemWire, Wire};
use hn_world::World;
use std::alloc::Global;

/// What a call came to: its status, and the world of the script that was played, if one was.
#[derive(Drop)]
pub struct Played {
    /// `DONE`, `REFUSED`, `SOURCE_FAILED`, `SINK_FAILED`, `WIRE_FAILED`, `NO_MEMORY`, or a status of the caller's own.
    pub status: u8,
    /// The world that the script led to, also where a line was refused, or the sink or the wire failed.
    pub world: Option<World>,
}

impl Played {
    /// A status with no world. Never allocates.
    pub fn without_world(status: u8) -> Played
        ensures status { result.status ≡ status }
        ensures no_world { result.world ≡ None }
    {
        Played {
            status,
            world: None,
        }
    }
}

/// The status of a play.
fn play_status(end: &Result<End, IoFault>) -> u8
    ensures status { result ≡ play_status end.now }
    ensures failed { result ≡ SINK_FAILED ↔ end.now ≡ Err IoFault.Failed }
    ensures broken { result ≡ WIRE_FAILED ↔ end.now ≡ Ok ends.WireFailed }
    ensures starved { result ≡ NO_MEMORY → end.now ≡ Err IoFault.NoMemory }
    ensures all { Contains (DONE ∷ REFUSED ∷ SINK_FAILED ∷ WIRE_FAILED ∷ NO_MEMORY ∷ []) result }
{
    match end {
        Ok(End::Done) => DONE,
        Ok(End::Refused { .. }) => REFUSED,
        Ok(End::WireFailed) => WIRE_FAILED,
        Err(IoFault::Failed) => SINK_FAILED,
        Err(IoFault::NoMemory) => NO_MEMORY,
    }
}

/// Writes the line of the first fault of a source that is no script.
fn refuse<K: Sink>(alloc: Global, fault: ScriptFault, out: &mut K) -> Played
    ensures written { (written : List ℕ) × IsLineWritten (refused_line fault.line fault.code) result.status written
        × Appends (K.held out.old) (K.held out.new) written }
    ensures no_world { result.world ≡ None }
    ensures not_done { result.status ≢ DONE }
    ensures statuses { Contains (REFUSED ∷ SINK_FAILED ∷ NO_MEMORY ∷ []) result.status }
    ensures caused { IsCaused (result.status ≡ SINK_FAILED) (K.faults out.old) (K.faults out.new)
        (K.never_fails out.old) (K.never_fails out.new) }
{
    match write_refusal(alloc, out, fault.line, fault.code) {
        Ok(()) => Played::without_world(REFUSED),
        Err(IoFault::Failed) => Played::without_world(SINK_FAILED),
        Err(IoFault::NoMemory) => Played::without_world(NO_MEMORY),
    }
}

/// Plays a script, whose lines are of its version, and writes its transcript. The trace is recorded or not.
fn play_over<K: Sink, W, C: Carrier<W>>(
    alloc: Global,
    recorded: bool,
    script: Script,
    out: &mut K,
    carrier: &C,
    outside: &mut W,
) -> Played
    requires limited { AllByRecursion (λ line. IsLimited line.1) script.lines }
    requires of_version { AllByRecursion (λ line. IsOfVersion script.version line.1) script.lines }
    ensures plays { (written : List ℕ) × Plays (C.route carrier.now outside.old) (C.route carrier.now outside.new) script
        result.status (world_parts result.world) written
        × Appends (K.held out.old) (K.held out.new) written }
    ensures done { HasDonePlay (C.route carrier.now outside.old) script → result.status ≢ REFUSED }
    ensures refused { HasRefusal (C.route carrier.now outside.old) script → result.status ≢ DONE }
    ensures no_world { result.status ≡ NO_MEMORY → result.world ≡ None }
    ensures world { result.status ≢ NO_MEMORY → IsSome result.world }
    ensures replayed { IfSome (world_parts result.world) IsReplayed }
    ensures statuses { Contains (DONE ∷ REFUSED ∷ SINK_FAILED ∷ WIRE_FAILED ∷ NO_MEMORY ∷ []) result.status }
    ensures caused { IsCaused (result.status ≡ SINK_FAILED) (K.faults out.old) (K.faults out.new)
        (K.never_fails out.old) (K.never_fails out.new) }
    ensures wire_caused { IsCaused (result.status ≡ WIRE_FAILED) (C.faults outside.old) (C.faults outside.new)
        (C.never_fails outside.old) (C.never_fails outside.new) }
{
    at_most_one_play();
    let mut playing = Playing::new(alloc, script.version, recorded);
    let end = play_lines(
        &mut playing,
        alloc,
        script.lines.into_vec(),
        out,
        carrier,
        outside,
    );
    let status = play_status(&end);
    if status == NO_MEMORY {
        return Played::without_world(status);
    }
    playing.world.is_replayed();
    Played {
        status,
        world: Some(playing.world),
    }
}

/// Plays a script, whose lines are of its version, and writes its transcript. The trace is recorded or not.
fn play_script<K: Sink, W: Wire>(
    alloc: Global,
    recorded: bool,
    script: Script,
    out: &mut K,
    wire: &mut W,
    base: Option<u16>,
) -> Played
    requires limited { AllByRecursion (λ line. IsLimited line.1) script.lines }
    requires of_version { AllByRecursion (λ line. IsOfVersion script.version line.1) script.lines }
    requires base { IfSome base (λ port. port ≤ 65534) }
    ensures plays { (written : List ℕ) × Plays (route_of base (W.waiting wire.old)) (route_of base (W.waiting wire.new)) script result.status (world_parts result.world) written
        × Appends (K.held out.old) (K.held out.new) written }
    ensures done { HasDonePlay (route_of base (W.waiting wire.old)) script → result.status ≢ REFUSED }
    ensures refused { HasRefusal (route_of base (W.waiting wire.old)) script → result.status ≢ DONE }
    ensures no_world { result.status ≡ NO_MEMORY → result.world ≡ None }
    ensures world { result.status ≢ NO_MEMORY → IsSome result.world }
    ensures replayed { IfSome (world_parts result.world) IsReplayed }
    ensures statuses { Contains (DONE ∷ REFUSED ∷ SINK_FAILED ∷ WIRE_FAILED ∷ NO_MEMORY ∷ []) result.status }
    ensures caused { IsCaused (result.status ≡ SINK_FAILED) (K.faults out.old) (K.faults out.new)
        (K.never_fails out.old) (K.never_fails out.new) }
    ensures wire_caused { IsCaused (result.status ≡ WIRE_FAILED) (W.faults wire.old) (W.faults wire.new)
        (W.never_fails wire.old) (W.never_fails wire.new) }
    ensures unwired { base ≡ None → (wire.new ≡ wire.old) × (result.status ≢ WIRE_FAILED) }
{
    match base {
        None => play_over(alloc, recorded, script, out, &Mail, &mut ()),
        Some(base) => play_over(alloc, recorded, script, out, &OverWire::new(base), wire),
    }
}

/// Plays a script, whose lines are of its version, and writes its transcript. By mail a script has exactly one, as
/// `AppendsTranscript` says: a front of it is written, and with status `DONE` or `REFUSED` the whole. With a base, at most
/// 65,534, copies that are delivered go over the wire from this port to the port after it.
///
/// There is no world if and only if the status is 6.
///
/// # Errors
///
/// The status says them. 2 comes exactly if a line is refused, and neither 4 nor 5 comes. Over a wire that does not
/// tell what waits, it comes only if a line is refused in some play over it. 4 and 5 come if and only if the count of
/// faults of the sink or the wire rose in this call; 5 never comes without a base. 6 comes out of memory; no clause
/// says when.
pub fn play<K: Sink, W: Wire>(
    alloc: Global,
    script: Script,
    out: &mut K,
    wire: &mut W,
    base: Option<u16>,
) -> Played
    requires limited { AllByRecursion (λ line. IsLimited line.1) script.lines }
    requires of_version { AllByRecursion (λ line. IsOfVersion script.version line.1) script.lines }
    requires base { IfSome base (λ port. port ≤ 65534) }
    ensures plays { (written : List ℕ) × Plays (route_of base (W.waiting wire.old)) (route_of base (W.waiting wire.new)) script result.status (world_parts result.world) written
        × Appends (K.held out.old) (K.held out.new) written }
    ensures transcript { base ≡ None → AppendsTranscript script result.status (world_parts result.world) (K.held out.old) (K.held out.new) }
    ensures done { HasDonePlay (route_of base (W.waiting wire.old)) script → result.status ≢ REFUSED }
    ensures refused { HasRefusal (route_of base (W.waiting wire.old)) script → result.status ≢ DONE }
    ensures no_world { result.status ≡ NO_MEMORY → result.world ≡ None }
    ensures world { result.status ≢ NO_MEMORY → IsSome result.world }
    ensures replayed { IfSome (world_parts result.world) IsReplayed }
    ensures statuses { Contains (DONE ∷ REFUSED ∷ SINK_FAILED ∷ WIRE_FAILED ∷ NO_MEMORY ∷ []) result.status }
    ensures caused { IsCaused (result.status ≡ SINK_FAILED) (K.faults out.old) (K.faults out.new)
        (K.never_fails out.old) (K.never_fails out.new) }
    ensures wire_caused { IsCaused (result.status ≡ WIRE_FAILED) (W.faults wire.old) (W.faults wire.new)
        (W.never_fails wire.old) (W.never_fails wire.new) }
    ensures unwired { base ≡ None → (wire.new ≡ wire.old) × (result.status ≢ WIRE_FAILED) }
{
    play_is_of_transcript();
    play_script(alloc, false, script, out, wire, base)
}

/// Plays the script that bytes are, or writes the line of their first fault. The trace is recorded or not.
fn play_bytes<K: Sink, W: Wire>(
    alloc: Global,
    recorded: bool,
    bytes: &[u8],
    out: &mut K,
    wire: &mut W,
    base: Option<u16>,
) -> Played
    requires base { IfSome base (λ port. port ≤ 65534) }
    ensures lab { (written : List ℕ) × IsLabOf (route_of base (W.waiting wire.old)) (route_of base (W.waiting wire.new)) bytes.now result.status (world_parts result.world) written
        × Appends (K.held out.old) (K.held out.new) written }
    ensures only { StatusOfScript (route_of base (W.waiting wire.old)) bytes.now result.status }
    ensures no_world { result.status ≡ NO_MEMORY → result.world ≡ None }
    ensures done_world { result.status ≡ DONE → IsSome result.world }
    ensures replayed { IfSome (world_parts result.world) IsReplayed }
    ensures statuses { Contains (DONE ∷ REFUSED ∷ SINK_FAILED ∷ WIRE_FAILED ∷ NO_MEMORY ∷ []) result.status }
    ensures caused { IsCaused (result.status ≡ SINK_FAILED) (K.faults out.old) (K.faults out.new)
        (K.never_fails out.old) (K.never_fails out.new) }
    ensures wire_caused { IsCaused (result.status ≡ WIRE_FAILED) (W.faults wire.old) (W.faults wire.new)
        (W.never_fails wire.old) (W.never_fails wire.new) }
    ensures unwired { base ≡ None → (wire.new ≡ wire.old) × (result.status ≢ WIRE_FAILED) }
{
    script_is_limited();
    lines_are_of_version();
    script_is_unique();
    fault_excludes_script();
    match parse(alloc, bytes) {
        Ok(script) => play_script(alloc, recorded, script, out, wire, base),
        Err(ParseFault::Script(fault)) => refuse(alloc, fault, out),
        Err(ParseFault::NoMemory) => Played::without_world(NO_MEMORY),
    }
}

/// Reads a script, plays it, and writes its transcript. The trace is recorded or not.
fn read_and_play<S: Source, K: Sink, W: Wire>(
    alloc: Global,
    recorded: bool,
    src: &mut S,
    out: &mut K,
    wire: &mut W,
    base: Option<u16>,
) -> Played
    requires base { IfSome base (λ port. port ≤ 65534) }
    ensures lab { result.status ≢ SOURCE_FAILED → IsLabRun (route_of base (W.waiting wire.old)) (route_of base (W.waiting wire.new)) (S.left src.old)
        result.status (world_parts result.world) (K.held out.old) (K.held out.new) }
    ensures no_world { (result.status ≡ SOURCE_FAILED) ⊎ (result.status ≡ NO_MEMORY) → result.world ≡ None }
    ensures done_world { result.status ≡ DONE → IsSome result.world }
    ensures replayed { IfSome (world_parts result.world) IsReplayed }
    ensures statuses { Contains (DONE ∷ REFUSED ∷ SOURCE_FAILED ∷ SINK_FAILED ∷ WIRE_FAILED ∷ NO_MEMORY ∷ []) result.status }
    ensures unwritten { result.status ≡ SOURCE_FAILED → out.new ≡ out.old }
    ensures unsent { result.status ≡ SOURCE_FAILED → wire.new ≡ wire.old }
    ensures source_caused { IsCaused (result.status ≡ SOURCE_FAILED) (S.faults src.old) (S.faults src.new)
        (S.never_fails src.old) (S.never_fails src.new) }
    ensures sink_caused { IsCaused (result.status ≡ SINK_FAILED) (K.faults out.old) (K.faults out.new)
        (K.never_fails out.old) (K.never_fails out.new) }
    ensures wire_caused { IsCaused (result.status ≡ WIRE_FAILED) (W.faults wire.old) (W.faults wire.new)
        (W.never_fails wire.old) (W.never_fails wire.new) }
    ensures unwired { base ≡ None → (wire.new ≡ wire.old) × (result.status ≢ WIRE_FAILED) }
    ensures bounded { (read : List ℕ) × (length read ≤ 2 ^ 24 + 1) × Consumes (S.left src.old) (S.left src.new) read }
{
    match read_all(alloc, src) {
        Ok(bytes) => play_bytes(alloc, recorded, &bytes, out, wire, base),
        Err(IoFault::Failed) => Played::without_world(SOURCE_FAILED),
        Err(IoFault::NoMemory) => Played::without_world(NO_MEMORY),
    }
}

/// Reads a script, plays it, and writes its transcript. By mail a script has exactly one transcript, as `IsOfTranscript` says: a
/// front of it is written, and with status `DONE` or `REFUSED` the whole. With a base, at most 65,534, copies that are
/// delivered go over the wire from this port to the port after it.
///
/// There is no world if and only if the status is 3 or 6, or the bytes of the source are no script.
///
/// # Errors
///
/// The status says them. 2 comes exactly if the bytes are no script or a line is refused, and none of 3 to 5 comes.
/// Over a wire that does not tell what waits, a play comes to 2 only if a line is refused in some play over it. 3, 4
/// and 5 come if and only if the count of faults of the source, the sink or the wire rose in this call; 5 never comes
/// without a base. 6 comes out of memory; no clause says when.
pub fn lab<S: Source, K: Sink, W: Wire>(
    alloc: Global,
    src: &mut S,
    out: &mut K,
    wire: &mut W,
    base: Option<u16>,
) -> Played
    requires base { IfSome base (λ port. port ≤ 65534) }
    ensures lab { result.status ≢ SOURCE_FAILED → IsLabRun (route_of base (W.waiting wire.old)) (route_of base (W.waiting wire.new)) (S.left src.old)
        result.status (world_parts result.world) (K.held out.old) (K.held out.new) }
    ensures transcript { base ≡ None → result.status ≢ SOURCE_FAILED → IsLabTranscript (route_of base (W.waiting wire.new)) (S.left src.old)
        result.status (world_parts result.world) (K.held out.old) (K.held out.new) }
    ensures no_world { (result.status ≡ SOURCE_FAILED) ⊎ (result.status ≡ NO_MEMORY) → result.world ≡ None }
    ensures done_world { result.status ≡ DONE → IsSome result.world }
    ensures replayed { IfSome (world_parts result.world) IsReplayed }
    ensures statuses { Contains (DONE ∷ REFUSED ∷ SOURCE_FAILED ∷ SINK_FAILED ∷ WIRE_FAILED ∷ NO_MEMORY ∷ []) result.status }
    ensures unwritten { result.status ≡ SOURCE_FAILED → out.new ≡ out.old }
    ensures unsent { result.status ≡ SOURCE_FAILED → wire.new ≡ wire.old }
    ensures source_caused { IsCaused (result.status ≡ SOURCE_FAILED) (S.faults src.old) (S.faults src.new)
        (S.never_fails src.old) (S.never_fails src.new) }
    ensures sink_caused { IsCaused (result.status ≡ SINK_FAILED) (K.faults out.old) (K.faults out.new)
        (K.never_fails out.old) (K.never_fails out.new) }
    ensures wire_caused { IsCaused (result.status ≡ WIRE_FAILED) (W.faults wire.old) (W.faults wire.new)
        (W.never_fails wire.old) (W.never_fails wire.new) }
    ensures unwired { base ≡ None → (wire.new ≡ wire.old) × (result.status ≢ WIRE_FAILED) }
    ensures bounded { (read : List ℕ) × (length read ≤ 2 ^ 24 + 1) × Consumes (S.left src.old) (S.left src.new) read }
{
    lab_is_of_transcript();
    read_and_play(alloc, false, src, out, wire, base)
}

/// Reads a script, plays it by mail, and writes its transcript, as `lab` does without a base. Where it is recorded, the world
/// keeps its trace as long as there is memory.
///
/// # Errors
///
/// The status says them, as that of `lab` does.
pub fn lab_by_mail<S: Source, K: Sink>(
    alloc: Global,
    recorded: bool,
    src: &mut S,
    out: &mut K,
) -> Played
    ensures lab { result.status ≢ SOURCE_FAILED → IsLabRun ByMail ByMail (S.left src.old)
        result.status (world_parts result.world) (K.held out.old) (K.held out.new) }
    ensures no_world { (result.status ≡ SOURCE_FAILED) ⊎ (result.status ≡ NO_MEMORY) → result.world ≡ None }
    ensures done_world { result.status ≡ DONE → IsSome result.world }
    ensures replayed { IfSome (world_parts result.world) IsReplayed }
    ensures statuses { Contains (DONE ∷ REFUSED ∷ SOURCE_FAILED ∷ SINK_FAILED ∷ WIRE_FAILED ∷ NO_MEMORY ∷ []) result.status }
    ensures unwritten { result.status ≡ SOURCE_FAILED → out.new ≡ out.old }
    ensures source_caused { IsCaused (result.status ≡ SOURCE_FAILED) (S.faults src.old) (S.faults src.new)
        (S.never_fails src.old) (S.never_fails src.new) }
    ensures sink_caused { IsCaused (result.status ≡ SINK_FAILED) (K.faults out.old) (K.faults out.new)
        (K.never_fails out.old) (K.never_fails out.new) }
    ensures unwired { result.status ≢ WIRE_FAILED }
    ensures bounded { (read : List ℕ) × (length read ≤ 2 ^ 24 + 1) × Consumes (S.left src.old) (S.left src.new) read }
{
    let mut wire = MemWire::new(alloc, Vec::new(alloc));
    read_and_play(alloc, recorded, src, out, &mut wire, None)
}
