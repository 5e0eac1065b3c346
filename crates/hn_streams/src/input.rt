ghost use Rattle.std.specs.Prelude.{◌≡◌, ◌+◌, ◌≤◌, ℕ, List, length, IfOk, Err};
ghost use Rattle.std.specs.Io.KnownBytes.{Consumes};
ghost use Rattle.hn_base.specs.Input.{IsWhole};
ghost use Rattle.hn_io.specs.Faults.{IsCaused};

use hn_io::{IoFault, Source};
use hn_script::SOURCE_LIMIT;
use std::alloc::Global;

const CHUNK: usize = 4096;

/// Reads a source to its end, or to one byte past the limit of 2^24 bytes, to see that there are more. The first call
/// that fails ends the reading.
///
/// # Errors
///
/// `Failed` if and only if the count of faults of the source rose; else out of memory.
pub fn read_all<S: Source>(alloc: Global, src: &mut S) -> Result<Vec<u8>, IoFault>
    ensures all { IfOk result (λ bytes. Consumes (S.left src.old) (S.left src.new) bytes.items) }
    ensures whole { IfOk result (λ bytes. length bytes.items ≤ SOURCE_LIMIT → IsWhole (S.left src.old) bytes.items) }
    ensures bounded { (read : List ℕ) × (length read ≤ SOURCE_LIMIT + 1) × Consumes (S.left src.old) (S.left src.new) read }
    ensures caused { IsCaused (result ≡ Err IoFault.Failed) (S.faults src.old) (S.faults src.new)
        (S.never_fails src.old) (S.never_fails src.new) }
{
    let mut bytes = Vec::new(alloc);
    let mut buf = [0; CHUNK];
    while bytes.len() <= SOURCE_LIMIT {
        let room = CHUNK.min(SOURCE_LIMIT + 1 - bytes.len());
        let count = src.read(&mut buf[..room])?;
        if count == 0 {
            return Ok(bytes);
        }
        if bytes.extend_from_slice(&buf[..count]).is_err() {
            return Err(IoFault::NoMemory);
        }
    }
    Ok(bytes)
}
