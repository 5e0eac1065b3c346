use crate::streams::{holds_lines, play_over};
use hn_io::{IoFault, MemSink, MemSource};
use hn_run::{DONE, SINK_FAILED, WIRE_FAILED};
use hn_wire::{MemWire, Wire};
use std::alloc::{AllocError, Global};
use std::test::Fail;

/// The script of a home of two.
const HOME: &str =
    "hncp 1\nrouter A 00000001\nrouter B 00000002\nlink L\nattach A 1 L\nattach B 1 L\n\
     external A 2001:db8::/56 7200 3600\nrun 20000 100\naudit A\nshow A\nprefixes A\nprefixes B\n";

/// Its text.
const HOME_TEXT: &str = "audit A settled=yes quiet=yes sound=yes
show A id=00000001 number=5 reach=2 held=1 running=yes
prefixes A 1
prefix A ep=1 in=2001:db8::/56 is=2001:db8::/64 published=no applied=yes
prefixes B 1
prefix B ep=1 in=2001:db8::/56 is=2001:db8::/64 published=2 applied=yes
";

/// The script of two routers that meet.
const MEETING: &str =
    "hncp 1\nrouter A 00000001\nrouter B 00000002\nlink L\nattach A 1 L\nattach B 1 L\n\
     time 100\ntick A\nmail\ndeliver 1\ndeliver 1\nmail\nflow\nmail\nshow A\nshow B\n";

/// A wire on which nothing comes back, and which tells nothing.
#[derive(Drop)]
struct Deaf;

impl Wire for Deaf {
    ghost use Rattle.std.specs.Prelude.{None};

    ghost faults = { λ _. 0 };

    ghost waiting = { λ _. None };

    ghost never_fails = { λ _. Unit {0} };

    fn send(&mut self, _from: u16, _to: u16, _bytes: &[u8]) -> Result<(), IoFault> {
        Ok(())
    }

    fn take(&mut self, _at: u16, _buf: &mut [u8]) -> Result<Option<(usize, u16)>, IoFault> {
        Ok(None)
    }
}

/// Plays a script over a wire, from port 9000. The calls on the sink whose numbers are listed fail. Answers the status and the
/// text.
fn over<W: Wire>(
    alloc: Global,
    script: &str,
    fails: Vec<u64>,
    wire: &mut W,
) -> Result<(u8, MemSink), AllocError> {
    let mut source = MemSource::new(script.as_bytes().to_vec(alloc)?, Vec::new(alloc));
    let mut sink = MemSink::new(alloc, fails);
    let (status, _) = play_over(alloc, "hncp udp 9000", &mut source, &mut sink, wire)?;
    Ok((status, sink))
}

#[test]
fn a_home_over_a_wire(rt: HostRuntime) -> Result<(), Fail> {
    let alloc = rt.alloc();
    for write in 1..7 {
        let mut wire = MemWire::new(alloc, Vec::new(alloc));
        let (status, sink) = over(alloc, HOME, vec![in alloc; write]?, &mut wire)?;
        assert!(rt; status == SINK_FAILED, "{write}: {status}");
        assert!(rt; holds_lines(&sink, write - 1, HOME_TEXT), "{write}");
    }
    let mut wire = MemWire::new(alloc, Vec::new(alloc));
    let (status, sink) = over(alloc, HOME, Vec::new(alloc), &mut wire)?;
    assert!(rt;
        status == DONE && sink.held() == HOME_TEXT.as_bytes(),
        "{status}"
    );
    assert!(rt; wire.waits(9001, 0).is_none(), "each copy was taken");
    Ok(())
}

#[test]
fn nothing_comes_back(rt: HostRuntime) -> Result<(), Fail> {
    let alloc = rt.alloc();
    let (status, sink) = over(alloc, HOME, Vec::new(alloc), &mut Deaf)?;
    assert!(rt; status == DONE, "{status}");
    assert!(rt; sink.held().starts_with(b"audit A settled=no\n"));
    Ok(())
}

/// Each send and each take fails in turn. The 36 copies of the home are 72 calls. After a failed send no copy waits, and
/// after a failed take one does.
#[test]
fn each_send_and_take_fails(rt: HostRuntime) -> Result<(), Fail> {
    let alloc = rt.alloc();
    for call in 1..73 {
        let mut wire = MemWire::new(alloc, vec![in alloc; call]?);
        let (status, sink) = over(alloc, HOME, Vec::new(alloc), &mut wire)?;
        assert!(rt;
            status == WIRE_FAILED && sink.held().is_empty(),
            "{call}: {status}"
        );
        assert!(rt; wire.waits(9001, 0).is_some() == (call % 2 == 0), "{call}");
        assert!(rt; wire.waits(9001, 1).is_none(), "{call}");
    }
    let mut wire = MemWire::new(alloc, vec![in alloc; 73]?);
    let (status, _) = over(alloc, HOME, Vec::new(alloc), &mut wire)?;
    assert!(rt; status == DONE, "{status}");
    Ok(())
}

/// What waits at the port after the base is taken first, in the place of the first copy.
#[test]
fn other_bytes_wait_before_the_call(rt: HostRuntime) -> Result<(), Fail> {
    let alloc = rt.alloc();
    let mut wire = MemWire::new(alloc, Vec::new(alloc));
    assert!(rt; wire.send(1, 9001, &[0]) == Ok(()));
    let (status, sink) = over(alloc, MEETING, Vec::new(alloc), &mut wire)?;
    assert!(rt; status == DONE, "{status}");
    let text = b"mail copies=1 waiting=1\nnote B malformed place=0 why=1\n";
    assert!(rt; sink.held().starts_with(text));
    assert!(rt; wire.waits(9001, 0).map(|(from, _)| from) == Some(9000));
    Ok(())
}
