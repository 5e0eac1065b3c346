//! A transcript of which the last line is kept, if that says a refusal.

ghost use Rattle.std.specs.Prelude.{◌≡◌, ◌++◌, [], ℕ, List, OnOk, OnErr};
ghost use Rattle.hn_streams.specs.Refusal.{refused_line};

use hn_base::Past;
use hn_io::{IoFault, Sink};
use memchr::memrchr;
use std::alloc::{AllocError, Global};
use std::marker::Model;

/// A sink that keeps what was written from its last `r` on, or all of it, if it has none. Contracts see all that was written.
#[derive(Drop)]
pub(crate) struct LastLine {
    alloc: Global,
    kept: Vec<u8>,
    written: Past<u8>,
}

impl Model for LastLine {
    ghost use Rattle.std.specs.Prelude.{List, ℕ};
    ghost use Rattle.hn_look.specs.LastLine.{IsFromLast};

    ghost Value = { List ℕ };

    ghost view = { λ s. s.written.items };

    ghost invariant = { λ s. IsFromLast s.written.items s.kept.items };
}

/// Says that a piece was written. Never allocates: only proofs read the list.
fn note(written: &mut Past<u8>, piece: &[u8])
    ensures { written.new.items ≡ written.old.items ++ piece.now }
{
    for byte in piece {
        *written = written.and(byte);
    }
}

/// The line of the refusal with which a transcript ends. It has no `r` but its first byte.
pub(crate) fn refusal_of(transcript: &LastLine) -> &[u8]
    ensures { (front : List ℕ) (number code : ℕ) → transcript.now ≡ front ++ refused_line number code → result.now ≡ refused_line number code }
{
    transcript.kept.as_slice()
}

impl LastLine {
    /// Nothing was written. Never allocates.
    pub(crate) fn new(alloc: Global) -> LastLine
        ensures { result ≡ [] }
    {
        LastLine {
            alloc,
            kept: Vec::new(alloc),
            written: Past::new(),
        }
    }

    /// Keeps what is to be kept of a piece that is written.
    fn keep(&mut self, piece: &[u8]) -> Result<(), AllocError>
        ensures ok { OnOk result (self.new ≡ self.old ++ piece.now) }
        ensures err { OnErr result (self.new ≡ self.old) }
    {
        match memrchr(b'r', piece) {
            Some(place) => self.kept = Vec::from_slice(self.alloc, &piece[place..])?,
            None => self.kept.extend_from_slice(piece)?,
        }
        note(&mut self.written, piece);
        Ok(())
    }
}

impl Sink for LastLine {
    ghost use Rattle.std.specs.Prelude.{⊤, Some};

    ghost faults = { λ _. 0 };

    ghost held = { λ s. Some s };

    ghost never_fails = { λ _. ⊤ };

    /// Takes the whole piece, or nothing.
    ///
    /// # Errors
    ///
    /// Out of memory.
    fn write(&mut self, piece: &[u8]) -> Result<usize, IoFault> {
        match self.keep(piece) {
            Ok(()) => Ok(piece.len()),
            Err(_) => Err(IoFault::NoMemory),
        }
    }
}
