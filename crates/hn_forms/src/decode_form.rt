//! `decode`: the contents of a datagram.

ghost use Rattle.std.specs.Prelude.{◌≡◌, ◌≢◌, ◌<◌, ◌≤◌, ◌+◌, ◌^◌, ◌⊎◌, ℕ, List, [], ◌∷◌, ◌++◌, length, drop, Err, OnOk, IfOk, IfErr, Contains};
ghost use Rattle.std.specs.Io.KnownBytes.{Appends, Consumes};
ghost use Rattle.hn_io.specs.Faults.{IsCaused};
ghost use Rattle.hn_tlv.specs.Grammar.{PlainTlv, IsTlvList, HasTlvs};
ghost use Rattle.hn_decode.specs.Nested.{IsDecodeText, IsTextTo};
ghost use Rattle.hn_forms.specs.Decode.{SpellsTlvs, IsContentsOf, IsDecodeOf, WritesDecode, CutsDecode, malformed_line};
ghost use Rattle.hn_forms.specs.Outcome.{IsDecodeRun};
ghost use Rattle.hn_streams.specs.Output.{AppendsCut};

use crate::hex_text::{is_out_of_memory, octets_of};
use crate::output::write_lines;
use crate::report::malformed_line;
use crate::status::{DONE, NO_MEMORY, REFUSED, SINK_FAILED, SOURCE_FAILED, written_status};
use hn_decode::{decode_text_exists, first_line, lines_go_on, lines_make_the_text, push_next};
use hn_io::{IoFault, Sink, Source};
use hn_script::{LARGE, MALFORMED, SOURCE_LIMIT};
use hn_streams::{pieces_append, read_all, write_piece, write_refusal};
use hn_tlv::{TlvFault, check, first_fault_is_unique, list_or_first_fault};
use std::alloc::Global;

/// Writes the line of octets that are no list of TLVs.
fn write_malformed<K: Sink>(alloc: Global, fault: TlvFault, out: &mut K) -> Result<(), IoFault>
    ensures written { OnOk result (Appends (K.held out.old) (K.held out.new) (malformed_line fault.place fault.why)) }
    ensures cut { IfErr result (λ cut. AppendsCut cut (K.held out.old) (K.held out.new) (malformed_line fault.place fault.why)) }
    ensures caused { IsCaused (result ≡ Err IoFault.Failed) (K.faults out.old) (K.faults out.new)
        (K.never_fails out.old) (K.never_fails out.new) }
{
    match malformed_line(alloc, fault) {
        Ok(line) => write_piece(out, line.as_bytes()),
        Err(_) => Err(IoFault::NoMemory),
    }
}

/// Writes the lines of the TLV at a place of a datagram, and answers the place after it. The lines are made in the
/// memory of `text`, which is emptied first.
fn write_next<K: Sink>(
    text: &mut String,
    octets: &[u8],
    at: usize,
    out: &mut K,
) -> Result<usize, IoFault>
    requires inside { at < length octets.now }
    requires list { HasTlvs (drop at octets.now) }
    ensures later { IfOk result (λ after. at < after) }
    ensures written { IfOk result (λ after. (more : List ℕ)
        × ((lines : List ℕ) → IsTextTo octets.now at lines → IsTextTo octets.now after (lines ++ more))
        × Appends (K.held out.old) (K.held out.new) more) }
    ensures cut { IfErr result (λ fault. (after : ℕ) × (more : List ℕ)
        × ((lines : List ℕ) → IsTextTo octets.now at lines → IsTextTo octets.now after (lines ++ more))
        × AppendsCut fault (K.held out.old) (K.held out.new) more) }
    ensures caused { IsCaused (result ≡ Err IoFault.Failed) (K.faults out.old) (K.faults out.new)
        (K.never_fails out.old) (K.never_fails out.new) }
{
    text.clear();
    match push_next(text, octets, at) {
        Ok(after) => {
            write_lines(out, text.as_bytes())?;
            Ok(after)
        }
        Err(_) => Err(IoFault::NoMemory),
    }
}

/// Writes the text of a datagram of so many TLVs: its first line, and then the lines of each TLV as they are made.
fn write_tlvs<K: Sink>(
    alloc: Global,
    count: usize,
    octets: &[u8],
    out: &mut K,
) -> Result<(), IoFault>
    requires { (tlvs : List PlainTlv) × IsTlvList tlvs octets.now × (length tlvs ≡ count) }
    ensures written { OnOk result ((text : List ℕ) × IsDecodeText octets.now text × Appends (K.held out.old) (K.held out.new) text) }
    ensures cut { IfErr result (λ fault. (text : List ℕ) × IsDecodeText octets.now text × AppendsCut fault (K.held out.old) (K.held out.new) text) }
    ensures caused { IsCaused (result ≡ Err IoFault.Failed) (K.faults out.old) (K.faults out.new)
        (K.never_fails out.old) (K.never_fails out.new) }
{
    lines_make_the_text();
    lines_go_on();
    pieces_append();
    let Ok(mut text) = first_line(alloc, count) else {
        return Err(IoFault::NoMemory);
    };
    write_piece(out, text.as_bytes())?;
    let mut at = 0;
    while at < octets.len() {
        at = write_next(&mut text, octets, at, out)?;
    }
    Ok(())
}

/// Writes the contents of a datagram, or the line of its first fault, and answers the status.
fn write_contents<K: Sink>(alloc: Global, octets: &[u8], out: &mut K) -> u8
    ensures written { (result ≡ DONE) ⊎ (result ≡ REFUSED)
        → (text : List ℕ) × IsContentsOf octets.now result text × Appends (K.held out.old) (K.held out.new) text }
    ensures broken { result ≡ SINK_FAILED
        → (status : ℕ) × (text : List ℕ) × IsContentsOf octets.now status text × AppendsCut IoFault.Failed (K.held out.old) (K.held out.new) text }
    ensures starved { result ≡ NO_MEMORY
        → (status : ℕ) × (text : List ℕ) × IsContentsOf octets.now status text × AppendsCut IoFault.NoMemory (K.held out.old) (K.held out.new) text }
    ensures statuses { Contains (DONE ∷ REFUSED ∷ SINK_FAILED ∷ NO_MEMORY ∷ []) result }
    ensures caused { IsCaused (result ≡ SINK_FAILED) (K.faults out.old) (K.faults out.new)
        (K.never_fails out.old) (K.never_fails out.new) }
{
    match check(octets) {
        Ok(count) => written_status(&write_tlvs(alloc, count, octets, out), DONE),
        Err(fault) => written_status(&write_malformed(alloc, fault, out), REFUSED),
    }
}

/// Writes the contents of the datagram that a source spells, or why it spells none, and answers the status.
fn write_decoded<K: Sink>(alloc: Global, source: Vec<u8>, out: &mut K) -> u8
    ensures written { (result ≡ DONE) ⊎ (result ≡ REFUSED) → WritesDecode source.items result (K.held out.old) (K.held out.new) }
    ensures broken { result ≡ SINK_FAILED → CutsDecode source.items IoFault.Failed (K.held out.old) (K.held out.new) }
    ensures starved { result ≡ NO_MEMORY → CutsDecode source.items IoFault.NoMemory (K.held out.old) (K.held out.new) }
    ensures statuses { Contains (DONE ∷ REFUSED ∷ SINK_FAILED ∷ NO_MEMORY ∷ []) result }
    ensures caused { IsCaused (result ≡ SINK_FAILED) (K.faults out.old) (K.faults out.new)
        (K.never_fails out.old) (K.never_fails out.new) }
{
    each_source_decodes();
    if source.len() > SOURCE_LIMIT {
        return written_status(&write_refusal(alloc, out, 0, LARGE), REFUSED);
    }
    match octets_of(alloc, source) {
        Ok(octets) => write_contents(alloc, &octets, out),
        Err(why) => {
            if is_out_of_memory(&why) {
                return NO_MEMORY;
            }
            written_status(&write_refusal(alloc, out, 0, MALFORMED), REFUSED)
        }
    }
}

/// Writes the contents of the datagram that a source spells, or why it spells none, and answers the status. A source
/// that spells a list of TLVs is not refused.
pub fn run_decode<K: Sink>(alloc: Global, source: Vec<u8>, out: &mut K) -> u8
    ensures written { (result ≡ DONE) ⊎ (result ≡ REFUSED) → WritesDecode source.items result (K.held out.old) (K.held out.new) }
    ensures broken { result ≡ SINK_FAILED → CutsDecode source.items IoFault.Failed (K.held out.old) (K.held out.new) }
    ensures starved { result ≡ NO_MEMORY → CutsDecode source.items IoFault.NoMemory (K.held out.old) (K.held out.new) }
    ensures complete { SpellsTlvs source.items → result ≢ REFUSED }
    ensures statuses { Contains (DONE ∷ REFUSED ∷ SINK_FAILED ∷ NO_MEMORY ∷ []) result }
    ensures caused { IsCaused (result ≡ SINK_FAILED) (K.faults out.old) (K.faults out.new)
        (K.never_fails out.old) (K.never_fails out.new) }
{
    first_fault_is_unique();
    write_decoded(alloc, source, out)
}

/// Each source has a text that `decode` writes of it.
pub fn each_source_decodes()
    ensures { (bytes : List ℕ) → (status : ℕ) × (text : List ℕ) × IsDecodeOf bytes status text }
{
    list_or_first_fault();
    decode_text_exists();
}

/// Reads hexadecimal text, and writes the contents of the datagram that it spells. Answers the status.
pub fn decode<S: Source, K: Sink>(alloc: Global, src: &mut S, out: &mut K) -> u8
    ensures decode { result ≢ SOURCE_FAILED → IsDecodeRun (S.left src.old) result (K.held out.old) (K.held out.new) }
    ensures statuses { Contains (DONE ∷ REFUSED ∷ SOURCE_FAILED ∷ SINK_FAILED ∷ NO_MEMORY ∷ []) result }
    ensures source_caused { IsCaused (result ≡ SOURCE_FAILED) (S.faults src.old) (S.faults src.new)
        (S.never_fails src.old) (S.never_fails src.new) }
    ensures sink_caused { IsCaused (result ≡ SINK_FAILED) (K.faults out.old) (K.faults out.new)
        (K.never_fails out.old) (K.never_fails out.new) }
    ensures unwritten { result ≡ SOURCE_FAILED → out.new ≡ out.old }
    ensures bounded { (read : List ℕ) × (length read ≤ 2 ^ 24 + 1) × Consumes (S.left src.old) (S.left src.new) read }
{
    each_source_decodes();
    match read_all(alloc, src) {
        Ok(bytes) => run_decode(alloc, bytes, out),
        Err(IoFault::Failed) => SOURCE_FAILED,
        Err(IoFault::NoMemory) => NO_MEMORY,
    }
}
