//! The text of a play, kept in memory.

ghost use Rattle.std.specs.Prelude.{◌≡◌, [], length, take};

use hn_io::{IoFault, Sink};
use std::alloc::Global;
use std::marker::Model;

/// The text of a play so far, to which more is written. Nothing but out of memory fails.
#[derive(Drop)]
pub struct TextSoFar {
    bytes: Vec<u8>,
}

impl Model for TextSoFar {
    ghost use Rattle.std.specs.Prelude.{ℕ, List};

    ghost Value = { List ℕ };

    ghost view = { λ t. t.bytes.items };
}

impl TextSoFar {
    /// No text. Never allocates.
    pub(crate) fn new(alloc: Global) -> TextSoFar
        ensures { result ≡ [] }
    {
        TextSoFar {
            bytes: Vec::new(alloc),
        }
    }

    /// The text. Never allocates.
    pub(crate) fn as_slice(&self) -> &[u8]
        ensures { result.now ≡ self.now }
    {
        self.bytes.as_slice()
    }

    /// How many bytes it has. Never allocates.
    pub(crate) fn len(&self) -> usize
        ensures { result ≡ length self.now }
    {
        self.bytes.len()
    }

    /// The text is cut back to so many bytes. Never allocates.
    pub(crate) fn cut(&mut self, count: usize)
        ensures { self.new ≡ take count self.old }
    {
        self.bytes.truncate(count);
    }
}

impl Sink for TextSoFar {
    ghost use Rattle.std.specs.Prelude.{⊤, Some};

    ghost faults = { λ _. 0 };

    ghost held = { λ text. Some text };

    ghost never_fails = { λ _. ⊤ };

    fn write(&mut self, piece: &[u8]) -> Result<usize, IoFault> {
        match self.bytes.extend_from_slice(piece) {
            Ok(()) => Ok(piece.len()),
            Err(_) => Err(IoFault::NoMemory),
        }
    }
}
