//! The program `hncp`: its words, the system's streams, sockets and clock are handed to `hn_run`.
#![tactic(auto)]

use hn_io::{ReaderSource, WriterSink};
use hn_program::{Ended, Input, LastPiece, words_of};
use hn_run::{BAD_USAGE, DONE, NO_MEMORY, REFUSED, SINK_FAILED, SOURCE_FAILED, WIRE_FAILED, run};
use hn_udp::UdpWire;
use hn_wire::MachineClock;
use std::io;
use std::io::{BufWriter, ErrorKind, Write};
use std::process::ExitCode;

/// The kind of input that the form of these words reads.
fn input_of(words: &[String]) -> Input {
    let form = match words.get(1) {
        Some(word) => word.as_bytes(),
        None => b"",
    };
    if form == b"node".as_slice() {
        Input::NodeFile
    } else if form == b"decode".as_slice() {
        Input::HexText
    } else if form == b"watch".as_slice() {
        Input::Capture
    } else {
        Input::Script
    }
}

/// Runs the program on the system's input, sockets and clock, and writes to this writer.
fn run_over<W: Write + Drop>(rt: &HostRuntime, words: &[String], writer: W) -> Ended {
    let alloc = rt.alloc();
    let mut source = ReaderSource::new(rt.reader());
    let mut sink = LastPiece::new(WriterSink::new(writer));
    let mut wire = UdpWire::new(alloc, rt);
    let mut clock = MachineClock::new(rt);
    let status = run(alloc, words, &mut source, &mut sink, &mut wire, &mut clock).status();
    Ended::after(status, &sink, input_of(words))
}

/// Runs the program on the system's streams. Standard output is written in blocks, the last one after the run; where
/// that fails, the status is 4.
fn run_words(rt: &HostRuntime, words: &[String]) -> Ended {
    let Ok(mut writer) = BufWriter::new(rt.alloc(), io::writer(rt)) else {
        return Ended::of(NO_MEMORY);
    };
    let ended = run_over(rt, words, &mut writer);
    match writer.flush() {
        Ok(()) => ended,
        Err(_) => Ended::of(SINK_FAILED),
    }
}

/// Runs the program on the words of the command line.
fn ended(rt: &HostRuntime) -> Ended {
    match words_of(rt, rt.alloc()) {
        Ok(words) => run_words(rt, &words),
        Err(error) if error.kind() == ErrorKind::OutOfMemory => Ended::of(NO_MEMORY),
        Err(_) => Ended::of(BAD_USAGE),
    }
}

/// Why the program ends with this status, for people; nothing for status 0.
fn reason(status: u8) -> &'static str {
    match status {
        BAD_USAGE => "hncp 1.0.0\n\
             usage: hncp lab < SCRIPT, hncp udp BASE < SCRIPT, hncp node ID PORT TURNS SEED PEER .. < NODEFILE, hncp decode < HEXTEXT, hncp watch < CAPTURE, or hncp soak ROUTERS SEED\n\
             ID: 8 hexadecimal digits; BASE, PORT, PEER: 1024 to 65534; TURNS: 1 to 100000; ROUTERS: 2 to 32; SEED: 0 to 18446744073709551615",
        REFUSED => "hncp: the input was refused; the last line of the output says where and why",
        SOURCE_FAILED => "hncp: standard input failed",
        SINK_FAILED => "hncp: standard output failed",
        WIRE_FAILED => "hncp: a loopback socket failed; another program may have its port",
        NO_MEMORY => "hncp: out of memory",
        _ => "",
    }
}

/// Says on standard error why the status is none of success.
fn tell(rt: &HostRuntime, ended: &Ended) -> io::Result<()> {
    match (ended.status, ended.refused) {
        (DONE, _) => Ok(()),
        (REFUSED, Some(why)) => eprintln!(rt;
            "hncp: the input was refused {why} (docs/FORMATS.md)"
        ),
        (status, _) => {
            let reason = reason(status);
            eprintln!(rt; "{reason}")
        }
    }
}

/// Ends with the status of the run.
fn main(rt: HostRuntime) -> ExitCode {
    let ended = ended(&rt);
    let _ = tell(&rt, &ended);
    ExitCode::from(ended.status)
}
