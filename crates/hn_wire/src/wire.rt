ghost use Rattle.std.specs.Prelude.{◌≡◌, ◌≤◌, ℕ, List, Option, Err, length, IfOk, IfSome, OnOk, OnErr};
ghost use Rattle.hn_io.specs.Faults.{IsCaused};
ghost use Rattle.hn_wire.specs.Wires.{Sends, TakesAt, arrived};
ghost use Rattle.hn_wire.specs.declared.datagram.Datagram.{Datagram};

use hn_io::IoFault;

/// What datagrams are sent over, from port to port.
pub trait Wire {
    /// How many calls have failed so far; it stops at 2^64 - 1. The count never falls.
    ghost faults: { Self → ℕ };

    /// The datagrams that wait, in the order in which they were sent, where the wire tells them.
    ghost waiting: { Self → Option (List Datagram) };

    /// Holds of a wire whose calls never fail, now and later. Out of memory is no failure.
    ghost never_fails: { Self → Type 0 };

    /// Sends a datagram from one port to another. It has at most 65,507 bytes.
    ///
    /// # Errors
    ///
    /// `Failed` if and only if the count of faults rises; else out of memory. What waits is as before then.
    fn send(&mut self, from: u16, to: u16, bytes: &[u8]) -> Result<(), IoFault>
        requires { length bytes.now ≤ 65507 }
        ensures sent { OnOk result (Sends (record { from = from; to = to; bytes = bytes.now }) (waiting self.old) (waiting self.new)) }
        ensures err { OnErr result (waiting self.new ≡ waiting self.old) }
        ensures caused { IsCaused (result ≡ Err IoFault.Failed) (faults self.old) (faults self.new)
            (never_fails self.old) (never_fails self.new) };

    /// Takes the first datagram that waits at a port into the front of `buf`, and answers how many bytes it has and the
    /// port that it came from; where the wire tells what waits, `None` exactly if nothing waits there and the call does
    /// not fail; else no clause says when. `buf` has 65,536 bytes, and a datagram at most 65,507.
    ///
    /// # Errors
    ///
    /// `Failed` if and only if the count of faults rises; else out of memory. What waits is as before then, and after
    /// out of memory the buffer. No clause says what the buffer has after `Failed`.
    fn take(&mut self, at: u16, buf: &mut [u8]) -> Result<Option<(usize, u16)>, IoFault>
        requires { length buf.old ≡ 65536 }
        ensures count { IfOk result (λ got. IfSome got (λ t. t.0 ≤ 65507)) }
        ensures taken { IfOk result (λ got. TakesAt at (arrived got buf.new) (waiting self.old) (waiting self.new)) }
        ensures err { OnErr result (waiting self.new ≡ waiting self.old) }
        ensures unlent { result ≡ Err IoFault.NoMemory → buf.new ≡ buf.old }
        ensures caused { IsCaused (result ≡ Err IoFault.Failed) (faults self.old) (faults self.new)
            (never_fails self.old) (never_fails self.new) };
}
