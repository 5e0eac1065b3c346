ghost use Rattle.std.specs.Prelude.{◌≡◌, None};
ghost use Rattle.hn_io.specs.Faults.{Rose};

use crate::fault::IoFault;
use crate::sink::Sink;
use crate::source::Source;
use std::io::{ErrorKind, Read, Write};

/// The count after one more fault.
fn after_fault(faults: u64) -> u64
    ensures { Rose faults result }
{
    faults.saturating_add(1)
}

/// A source over a reader of the system's, as standard input. It tells no content.
#[derive(Drop)]
pub struct ReaderSource<R> {
    reader: R,
    pub faults: u64,
}

impl<R: Read> ReaderSource<R> {
    /// A source whose calls have not failed. Never allocates.
    pub fn new(reader: R) -> ReaderSource<R>
        ensures { result.faults ≡ 0 }
    {
        ReaderSource { reader, faults: 0 }
    }
}

impl<R: Read> Source for ReaderSource<R> {
    ghost faults = { λ s. s.faults };

    ghost left = { λ _. None };

    ghost never_fails = { λ _. ⊥ };

    /// A read that is interrupted by a signal is tried again, as std does.
    ///
    /// # Errors
    ///
    /// `Failed` where the reader fails, and the count of faults rises. When a call fails the system decides: no clause
    /// says.
    fn read(&mut self, buf: &mut [u8]) -> Result<usize, IoFault> {
        for _ in 0..u64::MAX {
            match self.reader.read(buf) {
                Ok(count) => return Ok(count),
                Err(error) => {
                    if error.kind() != ErrorKind::Interrupted {
                        break;
                    }
                }
            }
        }
        self.faults = after_fault(self.faults);
        Err(IoFault::Failed)
    }
}

/// A sink over a writer of the system's, as standard output. It tells no content.
#[derive(Drop)]
pub struct WriterSink<W> {
    writer: W,
    pub faults: u64,
}

impl<W: Write> WriterSink<W> {
    /// A sink whose calls have not failed. Never allocates.
    pub fn new(writer: W) -> WriterSink<W>
        ensures { result.faults ≡ 0 }
    {
        WriterSink { writer, faults: 0 }
    }
}

impl<W: Write> Sink for WriterSink<W> {
    ghost faults = { λ s. s.faults };

    ghost held = { λ _. None };

    ghost never_fails = { λ _. ⊥ };

    /// A write that is interrupted by a signal is tried again, as std does. A writer that takes no byte has failed.
    ///
    /// # Errors
    ///
    /// `Failed` where the writer fails, and the count of faults rises. When a call fails the system decides: no clause
    /// says.
    fn write(&mut self, piece: &[u8]) -> Result<usize, IoFault> {
        for _ in 0..u64::MAX {
            match self.writer.write(piece) {
                Ok(0) => break,
                Ok(count) => return Ok(count),
                Err(error) => {
                    if error.kind() != ErrorKind::Interrupted {
                        break;
                    }
                }
            }
        }
        self.faults = after_fault(self.faults);
        Err(IoFault::Failed)
    }
}
