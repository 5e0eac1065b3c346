ghost use Rattle.std.specs.Prelude.{◌≡◌, ◌^◌, ◌≤◌};

use hn_base::Moment;
use std::marker::Model;

/// The present moment of a router or a world, in milliseconds, at most 2^48. Contracts see the number.
#[derive(Clone, Copy)]
pub struct Present {
    at: Moment,
}

impl Model for Present {
    ghost use Rattle.std.specs.Prelude.{ℕ, ◌≤◌, ◌^◌};

    ghost Value = { ℕ };

    ghost view = { λ p. p.at };

    ghost invariant = { λ p. p.at ≤ 2 ^ 48 };

    ghost inverse = { λ at. record { at = at } };
}

impl Present {
    /// This moment. Never allocates.
    pub fn new(at: Moment) -> Present
        requires { at ≤ 2 ^ 48 }
        ensures { result ≡ at }
    {
        Present { at }
    }

    /// The moment. Never allocates.
    pub fn get(&self) -> Moment
        ensures moment { result ≡ self.now }
        ensures in_range { result ≤ 2 ^ 48 }
    {
        self.at
    }
}
