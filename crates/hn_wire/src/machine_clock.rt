ghost use Rattle.std.specs.Prelude.{◌≡◌, ◌≤◌, ◌^◌, None};

use crate::clock::Clock;
use std::time;
use std::time::Instant;

/// The last moment, in milliseconds.
const LAST_MOMENT: u64 = 1 << 48;

/// The milliseconds since its first reading, by the machine's clock. A reading that the system refuses is the last one
/// again. It tells no content.
#[derive(Drop)]
pub struct MachineClock<R> {
    rt: R,
    begin: Option<Instant>,
    /// The last reading; 0 before the first.
    pub last: u64,
    ghost in_range: { last ≤ 2 ^ 48 },
}

impl<R: time::Clock> MachineClock<R> {
    /// A clock that was not read. Never allocates.
    pub fn new(rt: R) -> MachineClock<R>
        ensures { result.last ≡ 0 }
    {
        MachineClock {
            rt,
            begin: None,
            last: 0,
        }
    }

    /// The milliseconds since the first reading; 0 if the system tells no time.
    fn passed(&mut self) -> u64
        ensures { self.new.last ≡ self.old.last }
    {
        let Ok(now) = Instant::now(&self.rt) else {
            return 0;
        };
        match self.begin {
            None => {
                self.begin = Some(now);
                0
            }
            Some(begin) => {
                let millis = now.duration_since(begin).as_millis();
                u64::try_from(millis).unwrap_or(LAST_MOMENT)
            }
        }
    }
}

impl<R: time::Clock> Clock for MachineClock<R> {
    ghost last = { λ c. c.last };

    ghost readings = { λ _. None };

    fn now(&mut self) -> u64 {
        let passed = self.passed().min(LAST_MOMENT);
        self.last = self.last.max(passed);
        self.last
    }
}
