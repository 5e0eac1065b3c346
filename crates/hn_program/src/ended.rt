ghost use Rattle.std.specs.Prelude.{◌≡◌};

use crate::last_piece::LastPiece;
use crate::meaning::Input;
use crate::refusal::{Reason, Refusal};

/// What a program came to.
#[derive(Clone, Copy)]
pub struct Ended {
    /// The exit status.
    pub status: u8,
    /// Why the input was refused, where the last line that was written says it.
    pub refused: Option<Reason>,
}

impl Ended {
    /// A status with nothing beside it. Never allocates.
    pub fn of(status: u8) -> Ended
        ensures { result.status ≡ status }
    {
        Ended {
            status,
            refused: None,
        }
    }

    /// The status of a run that wrote to this sink, after it read this kind of input. Never allocates.
    pub fn after<K>(status: u8, sink: &LastPiece<K>, input: Input) -> Ended
        ensures { result.status ≡ status }
    {
        match Refusal::read(sink.end()) {
            Some(refusal) => Ended {
                status,
                refused: Some(refusal.of(input)),
            },
            None => Ended::of(status),
        }
    }
}
