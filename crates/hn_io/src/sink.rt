ghost use Rattle.std.specs.Prelude.{◌≡◌, ℕ, ◌<◌, ◌≤◌, List, Option, Err, length, take, IfOk, OnErr};
ghost use Rattle.std.specs.Io.KnownBytes.{Appends};
ghost use Rattle.hn_io.specs.Faults.{IsCaused};

use crate::fault::IoFault;

/// What bytes are written to.
pub trait Sink {
    /// How many calls have failed so far; it stops at 2^64 - 1. The count never falls.
    ghost faults: { Self → ℕ };

    /// The bytes that it holds, where the sink tells them.
    ghost held: { Self → Option (List ℕ) };

    /// Holds of a sink whose calls never fail, now and later. Out of memory is no failure.
    ghost never_fails: { Self → Type 0 };

    /// Writes the front of `piece`, at least one byte, and answers how many. `piece` is not empty.
    ///
    /// # Errors
    ///
    /// `Failed` if and only if the count of faults rises; else out of memory. What the sink holds is as before then.
    fn write(&mut self, piece: &[u8]) -> Result<usize, IoFault>
        requires { 0 < length piece.now }
        ensures some { IfOk result (λ n. 0 < n) }
        ensures count { IfOk result (λ n. n ≤ length piece.now) }
        ensures bytes { IfOk result (λ n. Appends (held self.old) (held self.new) (take n piece.now)) }
        ensures err { OnErr result (held self.new ≡ held self.old) }
        ensures caused { IsCaused (result ≡ Err IoFault.Failed) (faults self.old) (faults self.new)
            (never_fails self.old) (never_fails self.new) };
}
