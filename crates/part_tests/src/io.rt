use hn_io::{Draw, IoFault, Listed, Pcg, ReaderSource, Sink, Source, WriterSink, Zeros, below};
use std::io;
use std::io::{Error, ErrorKind, Read, Write};
use std::test::Fail;

/// A reader that is interrupted, gives one byte, then two, then ends, and then fails. It counts its calls.
#[derive(Drop)]
struct FlakyReader<'a> {
    calls: &'a mut u8,
}

impl Read for FlakyReader<'_> {
    fn read(&mut self, buf: &mut [u8]) -> io::Result<usize> {
        *self.calls = self.calls.saturating_add(1);
        match (*self.calls, buf) {
            (1, _) => Err(Error::from(ErrorKind::Interrupted)),
            (2, [first, ..]) => {
                *first = b'a';
                Ok(1)
            }
            (3, [first, second, ..]) => {
                *first = b'b';
                *second = b'c';
                Ok(2)
            }
            (4, _) => Ok(0),
            _ => Err(Error::from(ErrorKind::Other)),
        }
    }
}

/// A writer that is interrupted, takes two bytes at most, then two again, then none, and then fails. It counts its calls,
/// and keeps the first byte of each.
#[derive(Drop)]
struct FlakyWriter<'a> {
    calls: &'a mut u8,
    first: &'a mut u8,
}

impl Write for FlakyWriter<'_> {
    fn write(&mut self, buf: &[u8]) -> io::Result<usize> {
        *self.calls = self.calls.saturating_add(1);
        *self.first = buf.first().copied().unwrap_or(0);
        match *self.calls {
            1 => Err(Error::from(ErrorKind::Interrupted)),
            2 | 3 => Ok(buf.len().min(2)),
            4 => Ok(0),
            _ => Err(Error::from(ErrorKind::Other)),
        }
    }

    fn flush(&mut self) -> io::Result<()> {
        Ok(())
    }
}

#[test]
fn a_source_calls_its_reader(rt: HostRuntime) {
    let mut calls = 0;
    let mut source = ReaderSource::new(FlakyReader { calls: &mut calls });
    let mut buf = [0; 3];
    assert!(rt;
        source.read(&mut buf) == Ok(1),
        "an interruption is no fault"
    );
    assert!(rt; source.read(&mut buf) == Ok(2));
    assert!(rt; buf == [b'b', b'c', 0]);
    assert!(rt; source.read(&mut buf) == Ok(0), "the end is no fault");
    assert!(rt; source.faults == 0);
    assert!(rt;
        source.read(&mut buf) == Err(IoFault::Failed),
        "a failed read is not the end"
    );
    assert!(rt; source.faults == 1);
    drop(source);
    assert!(rt;
        calls == 5,
        "each read is one call of the reader, and one more after an interruption"
    );
}

#[test]
fn a_sink_calls_its_writer(rt: HostRuntime) {
    let mut calls = 0;
    let mut first = 0;
    let mut sink = WriterSink::new(FlakyWriter {
        calls: &mut calls,
        first: &mut first,
    });
    assert!(rt; sink.write(b"xyz") == Ok(2), "what the writer took");
    assert!(rt; sink.write(b"z") == Ok(1));
    assert!(rt; sink.faults == 0);
    assert!(rt;
        sink.write(b"w") == Err(IoFault::Failed),
        "a write of nothing is a fault"
    );
    assert!(rt;
        sink.write(b"v") == Err(IoFault::Failed),
        "a failed write is not done"
    );
    assert!(rt; sink.faults == 2);
    drop(sink);
    assert!(rt;
        calls == 5,
        "each write is one call of the writer, and one more after an interruption"
    );
    assert!(rt; first == b'v');
}

/// Words of a list and then zeros. The reference value of the original crate for seed 0 is one 64-bit word; its low half
/// is the first word.
#[test]
fn words(rt: HostRuntime) -> Result<(), Fail> {
    let mut listed = Listed::new(vec![in rt.alloc(); 7u32, u32::MAX, 20]?);
    assert!(rt; listed.next() == 7);
    assert!(rt; below(&mut listed, 4001) == 1822);
    assert!(rt; below(&mut listed, 6) == 2);
    assert!(rt; listed.next() == 0 && Zeros.next() == 0);
    let mut seeded = Pcg::new(0);
    assert!(rt; u64::from(seeded.next()) == 18195738587432868099 % 4294967296);
    assert!(rt; u64::from(seeded.next()) == 18195738587432868099 / 4294967296);
    Ok(())
}
