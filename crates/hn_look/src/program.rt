ghost use Rattle.std.specs.Prelude.{◌≡◌, ◌≢◌, ◌+◌, ◌^◌, ◌≤◌, ℕ, List, [], ◌∷◌, map, length, Contains, string_bytes};
ghost use Rattle.std.specs.Io.KnownBytes.{Consumes};
ghost use Rattle.hn_io.specs.Faults.{IsCaused};
ghost use Rattle.hn_look.specs.Form.{IsLookFormOf};
ghost use Rattle.hn_look.specs.Look.{Sees, SeesCalm, SeesLog, SeesTable, SeesWhy, MayStarve, IsLookRun};
ghost use Rattle.hn_base.specs.Name.{name_text};
ghost use Rattle.hn_base.specs.declared.name.Name.{Name};
ghost use Rattle.hn_look.specs.declared.words.Form.{Form};

use crate::last_line::LastLine;
use crate::look::look;
use crate::status::{
    BAD_USAGE, DONE, NO_MEMORY, REFUSED, SINK_FAILED, SOURCE_FAILED, looked_status,
};
use crate::words::Form;
use hn_io::{Sink, Source};
use hn_lab::lab_by_mail;
use std::alloc::Global;

/// Reads a script, plays it by mail, and looks at the world that it led to. Of the transcript the last line is kept, and
/// the trace is recorded for a log alone. Answers the status.
fn play_and_look<S: Source, K: Sink>(alloc: Global, form: &Form, src: &mut S, out: &mut K) -> u8
    ensures look { result ≢ SOURCE_FAILED → IsLookRun (MayStarve form.now) (Sees form.now) (S.left src.old) result (K.held out.old) (K.held out.new) }
    ensures statuses { Contains (DONE ∷ REFUSED ∷ SOURCE_FAILED ∷ SINK_FAILED ∷ NO_MEMORY ∷ []) result }
    ensures source_caused { IsCaused (result ≡ SOURCE_FAILED) (S.faults src.old) (S.faults src.new)
        (S.never_fails src.old) (S.never_fails src.new) }
    ensures sink_caused { IsCaused (result ≡ SINK_FAILED) (K.faults out.old) (K.faults out.new)
        (K.never_fails out.old) (K.never_fails out.new) }
    ensures unwritten { result ≡ SOURCE_FAILED → out.new ≡ out.old }
    ensures bounded { (read : List ℕ) × (length read ≤ 2 ^ 24 + 1) × Consumes (S.left src.old) (S.left src.new) read }
{
    let mut transcript = LastLine::new(alloc);
    let recorded = matches!(form, Form::Log);
    let played = lab_by_mail(alloc, recorded, src, &mut transcript);
    if played.status != DONE && played.status != REFUSED {
        return played.status;
    }
    looked_status(&look(alloc, form, &played, &transcript, out))
}

/// Runs the program: `words` are those of the command line, the program's name first. Each form reads a script and plays
/// it as `hncp lab` does; then it looks at the world that the script led to, up to the line that is refused, if one is.
/// `log` writes what happened, event by event, `table` what the router of a name holds, `why` whether it is settled and
/// quiet, and if not, why, and `calm` whether its home is calm and until when it lasts, and if not, what is missing.
///
/// # Errors
///
/// The status says them, and there is none but 0 to 4 and 6. 1 comes if and only if the words ask for no form. 2 comes
/// exactly if the bytes are no script, a line of the play is refused, the name of `table`, `why` or `calm` is unknown, or
/// that of `why` or `calm` is of a router that is stopped, and neither 3 nor 4 comes. 3 and 4 come if and only if the count of faults
/// of the source or the sink rose in this call. 6 comes out of memory; no clause says when.
pub fn run<S: Source, K: Sink>(alloc: Global, words: &[String], src: &mut S, out: &mut K) -> u8
    // Bad usage is what no form's words are; then nothing is touched.
    ensures form { result ≡ BAD_USAGE → (form : Form) → IsLookFormOf form (map string_bytes words.now) → ⊥ }
    ensures bad_usage { ((form : Form) → IsLookFormOf form (map string_bytes words.now) → ⊥) → result ≡ BAD_USAGE }
    ensures untouched { result ≡ BAD_USAGE → (src.new ≡ src.old) × (out.new ≡ out.old) }

    // What each form comes to. After status 3 there is no more to say. A log is written event by event, and the memory never
    // ends before there is a text (⊥); of the others it may (Unit).
    ensures log { IsLookFormOf Form.Log (map string_bytes words.now) → result ≢ SOURCE_FAILED
        → IsLookRun ⊥ SeesLog (S.left src.old) result (K.held out.old) (K.held out.new) }
    ensures table { (name : Name) → IsLookFormOf (Form.Table name) (map string_bytes words.now) → result ≢ SOURCE_FAILED
        → IsLookRun Unit (SeesTable (name_text name)) (S.left src.old) result (K.held out.old) (K.held out.new) }
    ensures why { (name : Name) → IsLookFormOf (Form.Why name) (map string_bytes words.now) → result ≢ SOURCE_FAILED
        → IsLookRun Unit (SeesWhy (name_text name)) (S.left src.old) result (K.held out.old) (K.held out.new) }
    ensures calm { (name : Name) → IsLookFormOf (Form.Calm name) (map string_bytes words.now) → result ≢ SOURCE_FAILED
        → IsLookRun Unit (SeesCalm (name_text name)) (S.left src.old) result (K.held out.old) (K.held out.new) }

    // Where each status comes from. After 3 nothing was written. Reading ends after 2^24 + 1 bytes.
    ensures statuses { Contains (DONE ∷ BAD_USAGE ∷ REFUSED ∷ SOURCE_FAILED ∷ SINK_FAILED ∷ NO_MEMORY ∷ []) result }
    ensures source_caused { IsCaused (result ≡ SOURCE_FAILED) (S.faults src.old) (S.faults src.new)
        (S.never_fails src.old) (S.never_fails src.new) }
    ensures sink_caused { IsCaused (result ≡ SINK_FAILED) (K.faults out.old) (K.faults out.new)
        (K.never_fails out.old) (K.never_fails out.new) }
    ensures unwritten { result ≡ SOURCE_FAILED → out.new ≡ out.old }
    ensures bounded { (read : List ℕ) × (length read ≤ 2 ^ 24 + 1) × Consumes (S.left src.old) (S.left src.new) read }
{
    match Form::of(words) {
        Some(form) => play_and_look(alloc, &form, src, out),
        None => BAD_USAGE,
    }
}
