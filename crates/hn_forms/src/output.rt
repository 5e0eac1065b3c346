ghost use Rattle.std.specs.Prelude.{◌≡◌, OnOk, OnErr, Err};
ghost use Rattle.std.specs.Io.KnownBytes.{Appends};
ghost use Rattle.hn_io.specs.Faults.{IsCaused};
ghost use Rattle.hn_streams.specs.Output.{AppendsPart};

use hn_io::{IoFault, Sink};
use hn_streams::{pieces_append, write_piece};
use memchr::memchr;

/// Hands a text that ends with LF to a sink line by line, each with its LF.
///
/// # Errors
///
/// `Failed` if and only if the count of faults of the sink rose; else out of memory. After either a proper front of the
/// text was written.
pub fn write_lines<K: Sink>(out: &mut K, text: &[u8]) -> Result<(), IoFault>
    ensures ok { OnOk result (Appends (K.held out.old) (K.held out.new) text.now) }
    ensures cut { OnErr result (AppendsPart (K.held out.old) (K.held out.new) text.now) }
    ensures caused { IsCaused (result ≡ Err IoFault.Failed) (K.faults out.old) (K.faults out.new)
        (K.never_fails out.old) (K.never_fails out.new) }
{
    pieces_append();
    let mut rest = text;
    while let Some(end) = memchr(b'\n', rest) {
        let (line, after) = rest.split_at(end + 1);
        write_piece(out, line)?;
        rest = after;
    }
    write_piece(out, rest)
}
