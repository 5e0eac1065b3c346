ghost use Rattle.std.specs.Prelude.{◌≡◌, ◌≢◌, ◌↔◌, ◌+◌, ◌^◌, ◌≤◌, ◌⊎◌, ℕ, List, All, None, Some, map, length, Contains, IfSome, string_bytes};
ghost use Rattle.std.specs.Io.KnownBytes.{Consumes};
ghost use Rattle.hn_io.specs.Faults.{IsCaused};
ghost use Rattle.hn_world.specs.SeenWorld.{world_parts};
ghost use Rattle.hn_world.specs.Replay.{IsReplayed, Always, Throughout};
ghost use Rattle.hn_world.specs.Authentic.{AuthenticUnlessInjected};
ghost use Rattle.hn_world.specs.Leaves.{EqualHashesAgree};
ghost use Rattle.hn_base.specs.declared.version.Version.TheVariants.{One};
ghost use Rattle.hn_world.specs.Within.{IsWithinLimits, AreWithinLimits};
ghost use Rattle.hn_audit.specs.Lasting.{CalmStaysInTurns};
ghost use Rattle.hn_audit.specs.Laws.{SettledElectAlike};
ghost use Rattle.hn_audit.specs.Staying.{QuietStays};
ghost use Rattle.hn_plain.specs.Plain.{SettledAreSound};
ghost use Rattle.hn_told.specs.Told.{HostsAreToldApart};
ghost use Rattle.hn_wire.specs.declared.datagram.Datagram.{Datagram};
ghost use Rattle.hn_node.specs.Turns.{IsBounded};
ghost use Rattle.hn_lab.specs.Lab.{IsLabRun};
ghost use Rattle.hn_play.specs.Stage.{Mail, OverWire};
ghost use Rattle.hn_lab.specs.Transcripts.{IsLabTranscript, TranscriptIsUnique};
ghost use Rattle.hn_forms.specs.Form.{IsFormOf, AsksNothing, LeavesUnused, statuses_of};
ghost use Rattle.hn_forms.specs.Outcome.{IsDecodeRun, IsWatchRun};
ghost use Rattle.hn_run.specs.Outcome.{IsSoakRun, LeavesOnWire};
ghost use Rattle.hn_forms.specs.Node.{IsNodeRun, plain_call};
ghost use Rattle.hn_forms.specs.declared.words.Form.{Form};
ghost use Rattle.hn_forms.specs.declared.words.NodeCall.{NodeCall};

use crate::outcome::Outcome;
use crate::soak::soak;
use crate::status::{BAD_USAGE, DONE, NO_MEMORY, REFUSED, SINK_FAILED, SOURCE_FAILED, WIRE_FAILED};
use hn_forms::{Form, decode, node, watch};
use hn_io::{Sink, Source};
use hn_lab::{lab, transcript_exists, wire_fails_at_a_copy};
use hn_wire::{Clock, Wire};
use std::alloc::Global;

/// Runs the program: `words` are those of the command line, the program's name first. The forms are `lab`, which reads
/// a script, plays it and writes its transcript; `udp`, which does the same and delivers each copy over the wire, from a
/// base to the port after it; `node`, which reads the file of a node and serves it over the wire; `decode`, which reads
/// hexadecimal text and writes what the datagram has; `watch`, which reads a capture and writes what was claimed by its
/// datagrams; and `soak`, which plays the script of a soak and writes its transcript.
///
/// There is no world with `node`, `decode` and `watch`, after 1, 3 and 6, and where the bytes are no script. There is
/// no served router but with `node`, and none after 1, 3 and 6 or where the file is refused.
///
/// # Errors
///
/// The status says them, and there is none but 0 to 6. 1 comes if and only if the words ask for no form. 2 comes
/// exactly if the input or a line of it is refused, and none of 3 to 5 comes; with `udp` over a wire that does not tell
/// what waits, a play comes to 2 only if a line is refused in some play over it. 3, 4 and 5 come if and only if the
/// count of faults of the source, the sink or the wire rose in this call. 6 comes out of memory; no clause says when.
pub fn run<S: Source, K: Sink, W: Wire, C: Clock>(
    alloc: Global,
    words: &[String],
    src: &mut S,
    out: &mut K,
    wire: &mut W,
    clock: &mut C,
) -> Outcome
    // Bad usage is what no form's words are; then nothing is touched.
    ensures bad_usage { result.status ≡ BAD_USAGE ↔ AsksNothing (map string_bytes words.now) }
    ensures untouched { result.status ≡ BAD_USAGE → (src.new ≡ src.old) × (out.new ≡ out.old) × (wire.new ≡ wire.old) × (clock.new ≡ clock.old) }

    // What each form comes to. After status 3 there is no more to say; it is said of the bytes that were read, which are
    // all that the source has, where it tells them. By mail, with `lab` and `soak`, a script has exactly one transcript: it
    // cannot be that it has none, any two are equal (`only`), and a front of it is written, with status 0 or 2 the whole. With
    // status 5 of `udp` the wire has what waited right before some copy, or that and the copy. With status 6 of `udp` and `node`
    // what waits is what the play or the turns could have left.
    ensures only { TranscriptIsUnique }
    ensures lab { IsFormOf Form.Lab (map string_bytes words.now) → result.status ≢ SOURCE_FAILED
        → IsLabTranscript Mail (S.left src.old) result.status (world_parts result.world) (K.held out.old) (K.held out.new) }
    ensures udp { (base : ℕ) → IsFormOf (Form.Udp base) (map string_bytes words.now) → result.status ≢ SOURCE_FAILED
        → IsLabRun (OverWire base (W.waiting wire.old)) (OverWire base (W.waiting wire.new)) (S.left src.old) result.status (world_parts result.world) (K.held out.old) (K.held out.new) }
    ensures udp_leaves { (base : ℕ) (waiting : List Datagram) → IsFormOf (Form.Udp base) (map string_bytes words.now)
        → W.waiting wire.old ≡ Some waiting → result.status ≡ WIRE_FAILED
        → LeavesOnWire base waiting (S.left src.old) (world_parts result.world) (W.waiting wire.new) }
    ensures node { (call : NodeCall) → IsFormOf (Form.Node call) (map string_bytes words.now) → result.status ≢ SOURCE_FAILED
        → IsNodeRun (plain_call call) (S.left src.old) result.status result.served (record { waiting = W.waiting wire.old; readings = C.readings clock.old })
        (record { waiting = W.waiting wire.new; readings = C.readings clock.new }) (K.held out.old) (K.held out.new) }
    ensures decode { IsFormOf Form.Decode (map string_bytes words.now) → result.status ≢ SOURCE_FAILED
        → IsDecodeRun (S.left src.old) result.status (K.held out.old) (K.held out.new) }
    ensures watch { IsFormOf Form.Watch (map string_bytes words.now) → result.status ≢ SOURCE_FAILED
        → IsWatchRun (S.left src.old) result.status (K.held out.old) (K.held out.new) }
    ensures soak { (n seed : ℕ) → IsFormOf (Form.Soak n seed) (map string_bytes words.now)
        → IsSoakRun n seed result.status (world_parts result.world) (K.held out.old) (K.held out.new) }

    // What a form does not use stays as it is, and what it does not make is not there.
    ensures unused { (form : Form) → IsFormOf form (map string_bytes words.now)
        → LeavesUnused form (src.new ≡ src.old) (wire.new ≡ wire.old) (clock.new ≡ clock.old) (result.world ≡ None) (result.served ≡ None) }

    // The world is the replay of its trace. At each moment of its past two routers with equal hashes have equal leaves, or
    // a collision exists; a running router that is settled and quiet is sound; on each link of one that is settled the
    // elections are equal; and on different links of one that is settled and quiet hosts are told no prefixes that overlap.
    ensures replayed { IfSome (world_parts result.world) IsReplayed }
    ensures headline { IfSome (world_parts result.world) (Always EqualHashesAgree) }
    ensures settled { IfSome (world_parts result.world) (Always SettledAreSound) }
    ensures elected { IfSome (world_parts result.world) (Always SettledElectAlike) }
    ensures told { IfSome (world_parts result.world) (Always HostsAreToldApart) }

    // Over time that passes, ticks that nothing disturbs, and deliveries of what its own routers say, a settled and quiet router
    // stays so, with the same assignments. A calm home stays so from each moment of that past on, while its routers tick in turns
    // without loss, until a lifetime ends that it sees, or its node data are to be published again.
    ensures stays { IfSome (world_parts result.world) (Throughout QuietStays) }
    ensures turns { IfSome (world_parts result.world) (Always CalmStaysInTurns) }

    // At each moment of its past tables, lists and datagrams are within the limits of its version; and until something is
    // injected, what routers hold of other nodes was published, or two texts that were published collide.
    ensures within_limits { IfSome (world_parts result.world) (Always AreWithinLimits) }
    ensures authentic { IfSome (world_parts result.world) (Always AuthenticUnlessInjected) }

    // A router that was served is within the limits of version 1, and each datagram that it took or sent fits one.
    ensures served_within { IfSome result.served (λ s. IsWithinLimits One s.router × All IsBounded s.log) }

    // Where each status comes from. After 3 nothing was written or sent, and no clock was read. Reading ends after 2^24 + 1 bytes.
    ensures statuses { (form : Form) → IsFormOf form (map string_bytes words.now) → Contains (statuses_of form) result.status }
    ensures nothing { (result.status ≡ BAD_USAGE) ⊎ ((result.status ≡ SOURCE_FAILED) ⊎ (result.status ≡ NO_MEMORY)) → (result.world ≡ None) × (result.served ≡ None) }
    ensures source { IsCaused (result.status ≡ SOURCE_FAILED) (S.faults src.old) (S.faults src.new) (S.never_fails src.old) (S.never_fails src.new) }
    ensures sink { IsCaused (result.status ≡ SINK_FAILED) (K.faults out.old) (K.faults out.new) (K.never_fails out.old) (K.never_fails out.new) }
    ensures wire { IsCaused (result.status ≡ WIRE_FAILED) (W.faults wire.old) (W.faults wire.new) (W.never_fails wire.old) (W.never_fails wire.new) }
    ensures unstarted { result.status ≡ SOURCE_FAILED → (out.new ≡ out.old) × (wire.new ≡ wire.old) × (clock.new ≡ clock.old) }
    ensures bounded { (read : List ℕ) × (length read ≤ 2 ^ 24 + 1) × Consumes (S.left src.old) (S.left src.new) read }
{
    transcript_exists();
    wire_fails_at_a_copy();
    match Form::of(words) {
        Some(Form::Lab) => Outcome::of_play(lab(alloc, src, out, wire, None)),
        Some(Form::Udp { base }) => Outcome::of_play(lab(alloc, src, out, wire, Some(base))),
        Some(Form::Node(call)) => Outcome::of_node(node(alloc, &call, src, out, wire, clock)),
        Some(Form::Decode) => Outcome::of(decode(alloc, src, out)),
        Some(Form::Watch) => Outcome::of(watch(alloc, src, out)),
        Some(Form::Soak { n, seed }) => Outcome::of_play(soak(alloc, n, seed, out, wire)),
        None => Outcome::of(BAD_USAGE),
    }
}
