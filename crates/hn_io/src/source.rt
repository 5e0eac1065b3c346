ghost use Rattle.std.specs.Prelude.{◌≡◌, ℕ, ◌<◌, ◌≤◌, List, Option, Ok, Err, length, take, IfOk, OnErr};
ghost use Rattle.std.specs.Io.KnownBytes.{Consumes, IsAtEnd};
ghost use Rattle.hn_io.specs.Faults.{IsCaused};

use crate::fault::IoFault;

/// What bytes are read from.
pub trait Source {
    /// How many calls have failed so far; it stops at 2^64 - 1. The count never falls.
    ghost faults: { Self → ℕ };

    /// The bytes that are left, where the source tells them.
    ghost left: { Self → Option (List ℕ) };

    /// Holds of a source whose calls never fail, now and later. Out of memory is no failure.
    ghost never_fails: { Self → Type 0 };

    /// Reads the next bytes into the front of `buf`, and answers how many; 0 is the end of input. Where the source
    /// tells what is left, 0 comes exactly if nothing is left and the call does not fail; else no clause says when.
    /// `buf` is not empty.
    ///
    /// # Errors
    ///
    /// `Failed` if and only if the count of faults rises; else out of memory. What is left is as before then, and after
    /// out of memory the buffer. No clause says what the buffer has after `Failed`.
    fn read(&mut self, buf: &mut [u8]) -> Result<usize, IoFault>
        requires { 0 < length buf.old }
        ensures count { IfOk result (λ n. n ≤ length buf.new) }
        ensures bytes { IfOk result (λ n. Consumes (left self.old) (left self.new) (take n buf.new)) }
        ensures end { result ≡ Ok 0 → IsAtEnd (left self.old) }
        ensures err { OnErr result (left self.new ≡ left self.old) }
        ensures unlent { result ≡ Err IoFault.NoMemory → buf.new ≡ buf.old }
        ensures caused { IsCaused (result ≡ Err IoFault.Failed) (faults self.old) (faults self.new)
            (never_fails self.old) (never_fails self.new) };
}
