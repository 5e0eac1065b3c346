ghost use Rattle.std.specs.Prelude.{◌≡◌, ◌<◌, Some, length};

use crate::clock::Clock;
use std::marker::Model;

/// A clock in memory. The last reading is repeated.
#[derive(Drop)]
pub struct MemClock {
    readings: Vec<u64>,
    at: usize,
    last: u64,
}

impl Model for MemClock {
    ghost use Rattle.std.specs.Prelude.{◌<◌, drop, length};
    ghost use Rattle.hn_wire.specs.Clocks.{AreReadings, MemoryClock};

    ghost Value = { MemoryClock };

    ghost view = { λ c. record { last = c.last; left = drop c.at c.readings.items } };

    ghost invariant = { λ c. (c.at < length c.readings.items) × AreReadings c.last (drop c.at c.readings.items) };
}

impl MemClock {
    ghost use Rattle.hn_wire.specs.Clocks.{AreReadings};

    /// A clock that gives these readings. Never allocates.
    pub fn new(readings: Vec<u64>) -> MemClock
        requires some { 0 < length readings.items }
        requires ordered { AreReadings 0 readings.items }
        ensures last { result.last ≡ 0 }
        ensures left { result.left ≡ readings.items }
    {
        MemClock {
            readings,
            at: 0,
            last: 0,
        }
    }
}

impl Clock for MemClock {
    ghost last = { λ c. c.last };

    ghost readings = { λ c. Some c.left };

    fn now(&mut self) -> u64 {
        let reading = self.readings[self.at];
        self.last = reading;
        if self.at + 1 < self.readings.len() {
            self.at += 1;
        }
        reading
    }
}
