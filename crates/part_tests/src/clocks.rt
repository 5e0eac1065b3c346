use hn_wire::{Clock, MachineClock};
use std::test::Fail;
use std::time::{Duration, Instant};
use std::{io, thread, time};

/// A clock of the system that goes 100,000 times as fast as another.
#[derive(Drop)]
struct Hurried<R> {
    rt: R,
}

impl<R: time::Clock> time::Clock for Hurried<R> {
    fn monotonic(&self) -> io::Result<Duration> {
        let time = self.rt.monotonic()?;
        Ok(time.saturating_mul(100_000))
    }

    fn since_1970(&self) -> io::Result<Duration> {
        self.rt.since_1970()
    }
}

/// The clock begins between two moments of the system and is read between two later ones, from forty minutes to almost
/// three hours after. Its reading is the time between, however long each call takes.
#[test]
fn the_clock_of_the_machine_is_that_of_the_system(rt: HostRuntime) -> Result<(), Fail> {
    let system = Hurried { rt: &rt };
    let mut clock = MachineClock::new(&system);
    let before = Instant::now(&system)?;
    assert!(rt; clock.now() == 0);
    let begun = Instant::now(&system)?;
    for round in 0..4 {
        thread::sleep(&rt, Duration::from_millis(25));
        let least = begun.elapsed(&system)?.as_millis();
        let reading = u128::from(clock.now());
        let most = before.elapsed(&system)?.as_millis();
        assert!(rt;
            least <= reading && reading <= most,
            "{round}: {reading} is not from {least} to {most}"
        );
    }
    Ok(())
}
