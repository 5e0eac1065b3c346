//! The program `hnlook`: its words and the system's streams are handed to `hn_look`.
#![tactic(auto)]

use hn_io::{ReaderSource, WriterSink};
use hn_look::{BAD_USAGE, DONE, NO_MEMORY, REFUSED, SINK_FAILED, SOURCE_FAILED, run};
use hn_program::{Ended, Input, LastPiece, words_of};
use std::io;
use std::io::{BufWriter, ErrorKind, Write};
use std::process::ExitCode;

/// Runs the program on the system's input, and writes to this writer.
fn run_over<W: Write + Drop>(rt: &HostRuntime, words: &[String], writer: W) -> Ended {
    let mut source = ReaderSource::new(rt.reader());
    let mut sink = LastPiece::new(WriterSink::new(writer));
    let status = run(rt.alloc(), words, &mut source, &mut sink);
    Ended::after(status, &sink, Input::Script)
}

/// Runs the program on the system's streams. Standard output is written in blocks, the last one after the run; where
/// that fails, the status is 4.
fn run_words(rt: &HostRuntime, words: &[String]) -> Ended {
    let Ok(mut writer) = BufWriter::new(rt.alloc(), io::writer(rt)) else {
        return Ended::of(NO_MEMORY);
    };
    let ended = run_over(rt, words, &mut writer);
    match writer.flush() {
        Ok(()) => ended,
        Err(_) => Ended::of(SINK_FAILED),
    }
}

/// Runs the program on the words of the command line.
fn ended(rt: &HostRuntime) -> Ended {
    match words_of(rt, rt.alloc()) {
        Ok(words) => run_words(rt, &words),
        Err(error) if error.kind() == ErrorKind::OutOfMemory => Ended::of(NO_MEMORY),
        Err(_) => Ended::of(BAD_USAGE),
    }
}

/// Why the program ends with this status, for people; nothing for status 0.
fn reason(status: u8) -> &'static str {
    match status {
        BAD_USAGE => "hnlook 1.0.0\n\
             usage: hnlook log < SCRIPT | hnlook why NAME < SCRIPT | hnlook calm NAME < SCRIPT | \
             hnlook table NAME < SCRIPT",
        REFUSED => "hnlook: the input was refused; the last line of the output says where and why",
        SOURCE_FAILED => "hnlook: standard input failed",
        SINK_FAILED => "hnlook: standard output failed",
        NO_MEMORY => "hnlook: out of memory",
        _ => "",
    }
}

/// Says on standard error why the status is none of success.
fn tell(rt: &HostRuntime, ended: &Ended) -> io::Result<()> {
    match (ended.status, ended.refused) {
        (DONE, _) => Ok(()),
        (REFUSED, Some(why)) => eprintln!(rt;
            "hnlook: the input was refused {why} (docs/FORMATS.md)"
        ),
        (status, _) => {
            let reason = reason(status);
            eprintln!(rt; "{reason}")
        }
    }
}

/// Ends with the status of the run.
fn main(rt: HostRuntime) -> ExitCode {
    let ended = ended(&rt);
    let _ = tell(&rt, &ended);
    ExitCode::from(ended.status)
}
