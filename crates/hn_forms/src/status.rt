ghost use Rattle.std.specs.Prelude.{◌≡◌};
ghost use Rattle.hn_forms.specs.Decode.{written_status};

use hn_io::IoFault;
pub use hn_streams::{DONE, NO_MEMORY, REFUSED, SINK_FAILED, SOURCE_FAILED, WIRE_FAILED};

/// The status of a text that was to be written: this one if it was written whole.
pub fn written_status(written: &Result<(), IoFault>, whole: u8) -> u8
    ensures { result ≡ written_status written.now whole }
{
    match written {
        Ok(()) => whole,
        Err(IoFault::Failed) => SINK_FAILED,
        Err(IoFault::NoMemory) => NO_MEMORY,
    }
}
