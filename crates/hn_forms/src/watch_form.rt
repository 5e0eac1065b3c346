//! `watch`: what was claimed on a link, by the datagrams of a capture.

ghost use Rattle.std.specs.Prelude.{◌≡◌, ◌≢◌, ◌≤◌, ◌+◌, ◌^◌, ◌⊎◌, ℕ, List, [], ◌∷◌, length, Err, OnOk, IfErr, Contains};
ghost use Rattle.std.specs.Io.KnownBytes.{Appends, Consumes};
ghost use Rattle.hn_io.specs.Faults.{IsCaused};
ghost use Rattle.hn_streams.specs.Output.{AppendsCut};
ghost use Rattle.hn_forms.specs.Watch.{seen_line, watch_text, IsCapture, WritesWatch, CutsWatch, StarvesWatch};
ghost use Rattle.hn_forms.specs.Capture.{IsTextOf};
ghost use Rattle.hn_forms.specs.Outcome.{IsWatchRun};

use crate::capture::read_capture;
use crate::seen_text;
use crate::status::{DONE, NO_MEMORY, REFUSED, SINK_FAILED, SOURCE_FAILED, written_status};
use hn_io::{IoFault, Sink, Source};
use hn_script::{LARGE, ParseFault, SOURCE_LIMIT};
use hn_streams::{pieces_append, read_all, write_piece, write_refusal};
use hn_watch::{Seen, Watch};
use std::alloc::Global;

/// Writes the line of a node that was seen.
fn write_seen<K: Sink>(alloc: Global, seen: &Seen, out: &mut K) -> Result<(), IoFault>
    ensures written { OnOk result (Appends (K.held out.old) (K.held out.new) (seen_line seen.now)) }
    ensures cut { IfErr result (λ cut. AppendsCut cut (K.held out.old) (K.held out.new) (seen_line seen.now)) }
    ensures caused { IsCaused (result ≡ Err IoFault.Failed) (K.faults out.old) (K.faults out.new)
        (K.never_fails out.old) (K.never_fails out.new) }
{
    match seen_text::seen_line(alloc, seen) {
        Ok(line) => write_piece(out, line.as_bytes()),
        Err(_) => Err(IoFault::NoMemory),
    }
}

/// Writes the text of a capture: its first line, and then that of each node that was seen.
fn write_text<K: Sink>(
    alloc: Global,
    datagrams: u64,
    malformed: u64,
    seen: &[Seen],
    out: &mut K,
) -> Result<(), IoFault>
    ensures written { OnOk result (Appends (K.held out.old) (K.held out.new) (watch_text datagrams malformed seen.now)) }
    ensures cut { IfErr result (λ cut. AppendsCut cut (K.held out.old) (K.held out.new) (watch_text datagrams malformed seen.now)) }
    ensures caused { IsCaused (result ≡ Err IoFault.Failed) (K.faults out.old) (K.faults out.new)
        (K.never_fails out.old) (K.never_fails out.new) }
{
    pieces_append();
    let Ok(first) = seen_text::watch_line(alloc, datagrams, malformed) else {
        return Err(IoFault::NoMemory);
    };
    write_piece(out, first.as_bytes())?;
    for one in seen {
        write_seen(alloc, one, out)?;
    }
    Ok(())
}

/// Writes what a watch has seen, and answers the status.
fn write_watch<K: Sink>(alloc: Global, watch: &Watch, out: &mut K) -> u8
    ensures written { result ≡ DONE → (text : List ℕ) × IsTextOf watch.now text × Appends (K.held out.old) (K.held out.new) text }
    ensures broken { result ≡ SINK_FAILED → (text : List ℕ) × IsTextOf watch.now text × AppendsCut IoFault.Failed (K.held out.old) (K.held out.new) text }
    ensures starved { result ≡ NO_MEMORY → Appends (K.held out.old) (K.held out.new) []
        ⊎ ((text : List ℕ) × IsTextOf watch.now text × AppendsCut IoFault.NoMemory (K.held out.old) (K.held out.new) text) }
    ensures statuses { Contains (DONE ∷ SINK_FAILED ∷ NO_MEMORY ∷ []) result }
    ensures caused { IsCaused (result ≡ SINK_FAILED) (K.faults out.old) (K.faults out.new)
        (K.never_fails out.old) (K.never_fails out.new) }
{
    match watch.seen(alloc) {
        Ok(seen) => {
            let written = write_text(alloc, watch.fed(), watch.malformed(), seen.as_slice(), out);
            written_status(&written, DONE)
        }
        Err(_) => NO_MEMORY,
    }
}

/// Writes what was claimed by the datagrams of a capture, or its first line with a fault, and answers the status.
fn write_watched<K: Sink>(alloc: Global, source: &[u8], out: &mut K) -> u8
    ensures written { (result ≡ DONE) ⊎ (result ≡ REFUSED) → WritesWatch source.now result (K.held out.old) (K.held out.new) }
    ensures broken { result ≡ SINK_FAILED → CutsWatch source.now IoFault.Failed (K.held out.old) (K.held out.new) }
    ensures starved { result ≡ NO_MEMORY → StarvesWatch source.now (K.held out.old) (K.held out.new) }
    ensures statuses { Contains (DONE ∷ REFUSED ∷ SINK_FAILED ∷ NO_MEMORY ∷ []) result }
    ensures caused { IsCaused (result ≡ SINK_FAILED) (K.faults out.old) (K.faults out.new)
        (K.never_fails out.old) (K.never_fails out.new) }
{
    if source.len() > SOURCE_LIMIT {
        return written_status(&write_refusal(alloc, out, 0, LARGE), REFUSED);
    }
    match read_capture(alloc, source) {
        Ok(watch) => write_watch(alloc, &watch, out),
        Err(ParseFault::Script(fault)) => {
            written_status(&write_refusal(alloc, out, fault.line, fault.code), REFUSED)
        }
        Err(ParseFault::NoMemory) => NO_MEMORY,
    }
}

/// Writes what was claimed by the datagrams of a capture, or its first line with a fault, and answers the status. A
/// capture is not refused.
pub fn run_watch<K: Sink>(alloc: Global, source: &[u8], out: &mut K) -> u8
    ensures written { (result ≡ DONE) ⊎ (result ≡ REFUSED) → WritesWatch source.now result (K.held out.old) (K.held out.new) }
    ensures broken { result ≡ SINK_FAILED → CutsWatch source.now IoFault.Failed (K.held out.old) (K.held out.new) }
    ensures starved { result ≡ NO_MEMORY → StarvesWatch source.now (K.held out.old) (K.held out.new) }
    ensures complete { (datagrams : List (List ℕ)) → IsCapture source.now datagrams → result ≢ REFUSED }
    ensures statuses { Contains (DONE ∷ REFUSED ∷ SINK_FAILED ∷ NO_MEMORY ∷ []) result }
    ensures caused { IsCaused (result ≡ SINK_FAILED) (K.faults out.old) (K.faults out.new)
        (K.never_fails out.old) (K.never_fails out.new) }
{
    write_watched(alloc, source, out)
}

/// Reads a capture, and writes what was claimed by its datagrams. Answers the status.
pub fn watch<S: Source, K: Sink>(alloc: Global, src: &mut S, out: &mut K) -> u8
    ensures watch { result ≢ SOURCE_FAILED → IsWatchRun (S.left src.old) result (K.held out.old) (K.held out.new) }
    ensures statuses { Contains (DONE ∷ REFUSED ∷ SOURCE_FAILED ∷ SINK_FAILED ∷ NO_MEMORY ∷ []) result }
    ensures source_caused { IsCaused (result ≡ SOURCE_FAILED) (S.faults src.old) (S.faults src.new)
        (S.never_fails src.old) (S.never_fails src.new) }
    ensures sink_caused { IsCaused (result ≡ SINK_FAILED) (K.faults out.old) (K.faults out.new)
        (K.never_fails out.old) (K.never_fails out.new) }
    ensures unwritten { result ≡ SOURCE_FAILED → out.new ≡ out.old }
    ensures bounded { (read : List ℕ) × (length read ≤ 2 ^ 24 + 1) × Consumes (S.left src.old) (S.left src.new) read }
{
    match read_all(alloc, src) {
        Ok(bytes) => run_watch(alloc, &bytes, out),
        Err(IoFault::Failed) => SOURCE_FAILED,
        Err(IoFault::NoMemory) => NO_MEMORY,
    }
}
