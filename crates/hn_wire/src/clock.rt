ghost use Rattle.std.specs.Prelude.{◌≡◌, ◌≤◌, ◌^◌, ℕ, List, Option};
ghost use Rattle.hn_wire.specs.Clocks.{ReadsClock};

/// What tells the time, in milliseconds.
pub trait Clock {
    /// The last reading; 0 before the first.
    ghost last: { Self → ℕ };

    /// The readings that are left, where the clock tells them.
    ghost readings: { Self → Option (List ℕ) };

    /// A reading. Never allocates.
    fn now(&mut self) -> u64
        ensures last { last self.new ≡ result }
        ensures not_before { last self.old ≤ result }
        ensures in_range { result ≤ 2 ^ 48 }
        ensures reading { ReadsClock (readings self.old) result (readings self.new) };
}
