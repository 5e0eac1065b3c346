use hn_io::{MemSink, MemSource, Sink, Source};
use hn_run::{DONE, REFUSED, SINK_FAILED, SOURCE_FAILED, run};
use hn_wire::{MemClock, MemWire, Wire};
use std::alloc::{AllocError, Global};
use std::process::Abort;
use std::test::Fail;

/// The words of a command line, with one space between two of them. An empty line has none.
pub fn words(alloc: Global, line: &str) -> Result<Vec<String>, AllocError> {
    let mut words = Vec::new(alloc);
    if line.is_empty() {
        return Ok(words);
    }
    for word in line.split(' ') {
        words.push(String::from_str(alloc, word)?)?;
    }
    Ok(words)
}

/// Runs the program over a wire: its status, and whether it came to a world.
pub fn play_over<S: Source, K: Sink, W: Wire>(
    alloc: Global,
    line: &str,
    source: &mut S,
    sink: &mut K,
    wire: &mut W,
) -> Result<(u8, bool), AllocError> {
    let words = words(alloc, line)?;
    let mut clock = MemClock::new(vec![in alloc; 0]?);
    let outcome = run(alloc, &words, source, sink, wire, &mut clock);
    Ok((outcome.status, outcome.world.is_some()))
}

/// The same over a wire on which nothing waits.
fn play<S: Source, K: Sink>(
    alloc: Global,
    line: &str,
    source: &mut S,
    sink: &mut K,
) -> Result<(u8, bool), AllocError> {
    let mut wire = MemWire::new(alloc, Vec::new(alloc));
    play_over(alloc, line, source, sink, &mut wire)
}

/// Runs the program with an input, of which one read fails, or one write: its status and its sink. No call is numbered 0.
fn ran(
    alloc: Global,
    line: &str,
    input: Vec<u8>,
    read: u64,
    write: u64,
) -> Result<(u8, MemSink), AllocError> {
    let mut source = MemSource::new(input, vec![in alloc; read]?);
    let mut sink = MemSink::new(alloc, vec![in alloc; write]?);
    let (status, _) = play(alloc, line, &mut source, &mut sink)?;
    Ok((status, sink))
}

/// How many lines end in a text.
pub fn lines_of(text: &[u8]) -> u64 {
    text.iter().filter(|byte| **byte == b'\n').count() as u64
}

/// Whether a sink holds the first lines of a text, so many of them, and nothing else.
pub fn holds_lines(sink: &MemSink, count: u64, text: &str) -> bool {
    let held = sink.held();
    let ends = held.last().is_none_or(|byte| *byte == b'\n');
    ends && lines_of(held) == count && text.as_bytes().starts_with(held)
}

/// The script of two lone routers.
const TWO_ROUTERS: &str = "hncp 1\nrouter A 00000001\nrouter B 00000002\nshow A\ncompare A B\n";

const TWO_ROUTERS_TEXT: &str =
    "show A id=00000001 number=1 reach=1 held=0 running=yes\ncompare A B net=same ids=other\n";

/// Two Router Advertisements come up in one line of the script, and then a line is refused.
const SENDING: &str =
    "hncp 2\nrouter A 00000001\nlink L\nattach A 1 L\nradv A 1\nrun 16200 100\nsolicit A 2\n";

const SENDING_TEXT: &str = "ra A 1 100 86000000400000000000000000000000\n\
                            ra A 1 16100 86000000400000000000000000000000\nrefused 7 11\n";

/// A TLV in another one.
const NESTED: &str = "0021000400210000\n";

const NESTED_TEXT: &str = "tlvs 1\n0 33 4 external\n  4 33 0 external\n";

/// Two claims that differ, and a datagram that is no list of TLVs.
const CAPTURE: &str = "00050014000000090000000200000000900150983cd24fb0\n\
                       00050014000000090000000200000000D41D8CD98F00B204\n000100";

const CAPTURE_TEXT: &str = "watch datagrams=3 malformed=1\n\
                            node 00000009 number=2 hash=900150983cd24fb0 conflicts=1\n";

/// The reads are that of the whole input and that of its end; each fails in turn. The writes are one a line; each fails in
/// turn, and the lines before it are written. Then no call fails, and the run comes to this status and text.
fn fails_in_turn(
    rt: &impl Abort,
    alloc: Global,
    line: &str,
    input: &str,
    status: u8,
    text: &str,
) -> Result<(), Fail> {
    let input = input.as_bytes();
    for read in 1..3 {
        let (came_to, sink) = ran(alloc, line, input.to_vec(alloc)?, read, 0)?;
        assert!(rt;
            came_to == SOURCE_FAILED && sink.held().is_empty(),
            "{line}, read {read}"
        );
    }
    let lines = lines_of(text.as_bytes());
    for write in 1..=lines {
        let (came_to, sink) = ran(alloc, line, input.to_vec(alloc)?, 0, write)?;
        assert!(rt;
            came_to == SINK_FAILED && holds_lines(&sink, write - 1, text),
            "{line}, write {write}"
        );
    }
    let (came_to, sink) = ran(
        alloc,
        line,
        input.to_vec(alloc)?,
        3,
        lines.saturating_add(1),
    )?;
    assert!(rt; came_to == status, "{line}: {came_to}");
    assert!(rt; sink.held() == text.as_bytes(), "{line}");
    Ok(())
}

#[test]
fn each_read_and_write_fails_in_turn(rt: HostRuntime) -> Result<(), Fail> {
    for (line, input, status, text) in [
        ("hncp lab", TWO_ROUTERS, DONE, TWO_ROUTERS_TEXT),
        ("hncp lab", SENDING, REFUSED, SENDING_TEXT),
        (
            "hncp decode",
            "007B000178000000",
            DONE,
            "tlvs 1\n0 123 1 other value=78\n",
        ),
        ("hncp decode", NESTED, DONE, NESTED_TEXT),
        ("hncp decode", "x", REFUSED, "refused 0 4\n"),
        (
            "hncp decode",
            "000100",
            REFUSED,
            "malformed place=0 why=1\n",
        ),
        ("hncp watch", CAPTURE, DONE, CAPTURE_TEXT),
        ("hncp watch", "-\n00 ", REFUSED, "refused 2 4\n"),
    ] {
        fails_in_turn(&rt, rt.alloc(), line, input, status, text)?;
    }
    Ok(())
}

#[test]
fn a_write_of_a_soak_fails(rt: HostRuntime) -> Result<(), Fail> {
    let alloc = rt.alloc();
    let mut source = MemSource::new(Vec::new(alloc), Vec::new(alloc));
    let mut sink = MemSink::new(alloc, vec![in alloc; 1]?);
    let (status, has_world) = play(alloc, "hncp soak 2 1", &mut source, &mut sink)?;
    assert!(rt; status == SINK_FAILED, "{status}");
    assert!(rt; has_world && sink.held().is_empty());
    Ok(())
}
