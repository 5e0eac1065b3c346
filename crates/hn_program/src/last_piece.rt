ghost use Rattle.std.specs.Prelude.{◌≡◌, ◌≤◌, vec_len};

use hn_io::{IoFault, Sink};

/// So many bytes are kept. A line that says a refusal has fewer.
const KEPT: usize = 64;

/// A sink that hands on what is written, and keeps the end of the last piece. A line that says a refusal is a piece, or
/// its end.
#[derive(Drop)]
pub struct LastPiece<K> {
    sink: K,
    end: [u8; KEPT],
    len: usize,
}

impl<K: Sink> LastPiece<K> {
    /// One that hands on to this sink. Never allocates.
    pub fn new(sink: K) -> LastPiece<K>
        ensures faults { K.faults result.sink ≡ K.faults sink }
    {
        LastPiece {
            sink,
            end: [0; KEPT],
            len: 0,
        }
    }

    /// Keeps the end of a piece.
    fn keep(&mut self, piece: &[u8])
        ensures { self.new.sink ≡ self.old.sink }
    {
        let tail = &piece[piece.len().saturating_sub(KEPT)..];
        self.len = tail.len();
        self.end[..tail.len()].copy_from_slice(tail);
    }
}

impl<K> LastPiece<K> {
    /// The end of the last piece that was written. Never allocates.
    pub fn end(&self) -> &[u8] {
        &self.end[..self.len.min(KEPT)]
    }
}

impl<K: Sink> Sink for LastPiece<K> {
    ghost faults = { λ s. K.faults s.sink };

    ghost held = { λ s. K.held s.sink };

    ghost never_fails = { λ s. K.never_fails s.sink };

    /// Writes to the sink below.
    ///
    /// # Errors
    ///
    /// Those of the sink below.
    fn write(&mut self, piece: &[u8]) -> Result<usize, IoFault> {
        let count = self.sink.write(piece)?;
        self.keep(&piece[..count]);
        Ok(count)
    }
}
