ghost use Rattle.std.specs.Prelude.{◌≡◌, ◌≤◌};

use std::marker::Model;

/// The length of the prefixes that a link is assigned, 1 to 64 bits. Contracts see the number.
#[derive(Clone, Copy)]
pub struct LinkLength {
    bits: u8,
}

impl Model for LinkLength {
    ghost use Rattle.std.specs.Prelude.{ℕ, ◌≤◌};

    ghost Value = { ℕ };

    ghost view = { λ l. l.bits };

    ghost invariant = { λ l. (1 ≤ l.bits) × (l.bits ≤ 64) };

    ghost inverse = { λ bits. record { bits = bits } };
}

impl LinkLength {
    /// This length. Never allocates.
    pub fn new(bits: u8) -> LinkLength
        requires some { 1 ≤ bits }
        requires in_range { bits ≤ 64 }
        ensures { result ≡ bits }
    {
        LinkLength { bits }
    }

    /// The length. Never allocates.
    pub fn get(&self) -> u8
        ensures length { result ≡ self.now }
        ensures some { 1 ≤ result }
        ensures in_range { result ≤ 64 }
    {
        self.bits
    }
}
