ghost use Rattle.std.specs.Prelude.{◌≡◌, ◌≢◌, Err};
ghost use Rattle.hn_play.specs.Ended.{stopping};

use hn_base::NoMemory;
use hn_io::IoFault;
use hn_world::WorldFault;
use std::alloc::AllocError;

/// How the play of a script ends.
#[derive(Clone, Copy)]
pub enum End {
    /// All lines are done.
    Done,
    /// The line of this number is refused with this code; lines are numbered from 1.
    Refused { line: u32, code: u8 },
    /// The wire failed, right before a delivery that is not refused.
    WireFailed,
}

/// Why a line goes no further.
#[derive(Clone, Copy)]
pub enum Stop {
    /// It is refused with this code.
    Refused(u8),
    /// The wire failed.
    WireFailed,
    /// Nothing goes on: the sink failed, or memory ended.
    Cut(IoFault),
}

impl From<NoMemory> for Stop {
    ghost use Rattle.std.specs.Prelude.{◌≡◌};
    ghost use Rattle.hn_io.specs.declared.fault.IoFault.TheVariants as fault;
    ghost use Rattle.hn_play.specs.declared.end.Stop.TheVariants as stop;

    ghost from_gives = { λ _ e. e ≡ stop.Cut fault.NoMemory };

    fn from(_error: NoMemory) -> Stop {
        Stop::Cut(IoFault::NoMemory)
    }
}

impl From<IoFault> for Stop {
    ghost use Rattle.std.specs.Prelude.{◌≡◌};
    ghost use Rattle.hn_play.specs.declared.end.Stop.TheVariants as stop;

    ghost from_gives = { λ fault e. e ≡ stop.Cut fault };

    fn from(fault: IoFault) -> Stop {
        Stop::Cut(fault)
    }
}

impl From<AllocError> for Stop {
    ghost use Rattle.std.specs.Prelude.{◌≡◌};
    ghost use Rattle.hn_io.specs.declared.fault.IoFault.TheVariants as fault;
    ghost use Rattle.hn_play.specs.declared.end.Stop.TheVariants as stop;

    ghost from_gives = { λ _ e. e ≡ stop.Cut fault.NoMemory };

    fn from(_error: AllocError) -> Stop {
        Stop::Cut(IoFault::NoMemory)
    }
}

impl From<WorldFault> for Stop {
    ghost use Rattle.std.specs.Prelude.{◌≡◌};
    ghost use Rattle.hn_play.specs.Ended.{stop_of};

    ghost from_gives = { λ fault e. e ≡ stop_of fault };

    fn from(fault: WorldFault) -> Stop {
        match fault {
            WorldFault::Refused(code) => Stop::Refused(code),
            WorldFault::NoMemory => Stop::Cut(IoFault::NoMemory),
        }
    }
}

/// The answer of a world, as that of a play: neither a wire nor a sink failed. Never allocates.
pub fn stopping<T>(answer: Result<T, WorldFault>) -> Result<T, Stop>
    ensures same { result ≡ stopping answer }
    ensures unbroken { result ≢ Err Stop.WireFailed }
    ensures unwritten { result ≢ Err (Stop.Cut IoFault.Failed) }
{
    match answer {
        Ok(done) => Ok(done),
        Err(WorldFault::Refused(code)) => Err(Stop::Refused(code)),
        Err(WorldFault::NoMemory) => Err(Stop::Cut(IoFault::NoMemory)),
    }
}
