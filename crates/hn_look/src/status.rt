ghost use Rattle.std.specs.Prelude.{◌≡◌};
ghost use Rattle.hn_look.specs.Look.{looked_status};

use hn_io::IoFault;
pub use hn_streams::{DONE, NO_MEMORY, REFUSED, SINK_FAILED, SOURCE_FAILED};

/// Bad usage: the words of the command line ask for nothing that there is; nothing was read or written.
pub const BAD_USAGE: u8 = 1;

/// The status of a look, which the sink or the memory may cut.
pub(crate) fn looked_status(looked: &Result<u8, IoFault>) -> u8
    ensures { result ≡ looked_status looked.now }
{
    match looked {
        Ok(status) => *status,
        Err(IoFault::Failed) => SINK_FAILED,
        Err(IoFault::NoMemory) => NO_MEMORY,
    }
}
