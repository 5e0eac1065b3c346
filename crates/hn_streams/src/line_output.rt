ghost use Rattle.std.specs.Prelude.{◌≡◌, ◌++◌, ℕ, List, OnOk, OnErr, Err};
ghost use Rattle.std.specs.Io.KnownBytes.{Appends};
ghost use Rattle.hn_io.specs.Faults.{IsCaused};
ghost use Rattle.hn_streams.specs.TextLines.{AreCut, joined};

use crate::output::write_piece;
use crate::text_lines::Lines;
use hn_io::{IoFault, Sink};

/// Writes lines, each as one piece.
pub fn write_lines<K: Sink>(out: &mut K, lines: &Lines) -> Result<(), IoFault>
    ensures ok { OnOk result (Appends (K.held out.old) (K.held out.new) (joined lines.now)) }
    ensures cut { OnErr result ((before : List (List ℕ)) × (cut part : List ℕ) × AreCut lines.now before cut part
        × Appends (K.held out.old) (K.held out.new) (joined before ++ part)) }
    ensures caused { IsCaused (result ≡ Err IoFault.Failed) (K.faults out.old) (K.faults out.new)
        (K.never_fails out.old) (K.never_fails out.new) }
{
    for line in lines.as_slice() {
        write_piece(out, line.as_bytes())?;
    }
    Ok(())
}
