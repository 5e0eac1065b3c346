ghost use Rattle.std.specs.Prelude.{◌≡◌, OnOk, OnErr, IfOk, Err, string_bytes};
ghost use Rattle.std.specs.Io.KnownBytes.{Appends};
ghost use Rattle.hn_io.specs.Faults.{IsCaused};
ghost use Rattle.hn_streams.specs.Output.{AppendsPart};
ghost use Rattle.hn_streams.specs.Refusal.{refused_line};

use hn_io::{IoFault, Sink};
use std::alloc::{AllocError, Global};

/// Hands a piece to a sink, and what a write leaves over again, until it is written whole or a call fails.
///
/// # Errors
///
/// `Failed` if and only if the count of faults of the sink rose; else out of memory. After either a proper front of the
/// piece was written.
pub fn write_piece<K: Sink>(out: &mut K, piece: &[u8]) -> Result<(), IoFault>
    ensures ok { OnOk result (Appends (K.held out.old) (K.held out.new) piece.now) }
    ensures cut { OnErr result (AppendsPart (K.held out.old) (K.held out.new) piece.now) }
    ensures caused { IsCaused (result ≡ Err IoFault.Failed) (K.faults out.old) (K.faults out.new)
        (K.never_fails out.old) (K.never_fails out.new) }
{
    let mut rest = piece;
    while !rest.is_empty() {
        let count = out.write(rest)?;
        rest = &rest[count..];
    }
    Ok(())
}

/// The last line of a run that was refused.
fn refused_line(alloc: Global, line: u32, code: u8) -> Result<String, AllocError>
    ensures { IfOk result (λ text. string_bytes text ≡ refused_line line code) }
{
    format!(in alloc; "refused {line} {code}\n")
}

/// Writes the line of a refusal.
///
/// # Errors
///
/// `Failed` if and only if the count of faults of the sink rose; else out of memory. After either a proper front of the
/// line was written.
pub fn write_refusal<K: Sink>(
    alloc: Global,
    out: &mut K,
    line: u32,
    code: u8,
) -> Result<(), IoFault>
    ensures ok { OnOk result (Appends (K.held out.old) (K.held out.new) (refused_line line code)) }
    ensures cut { OnErr result (AppendsPart (K.held out.old) (K.held out.new) (refused_line line code)) }
    ensures caused { IsCaused (result ≡ Err IoFault.Failed) (K.faults out.old) (K.faults out.new)
        (K.never_fails out.old) (K.never_fails out.new) }
{
    match refused_line(alloc, line, code) {
        Ok(text) => write_piece(out, text.as_bytes()),
        Err(_) => Err(IoFault::NoMemory),
    }
}
