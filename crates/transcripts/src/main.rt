//! Compares texts with those that are wanted. In the folder that the program is run in, the input of a text is the file
//! beside it that has its stem:
//! - a script `STEM.script`, which is played: `STEM.transcript` is wanted;
//! - a datagram in hexadecimal, `STEM.hex`, which is read: `STEM.transcript` is wanted;
//! - a home `STEM.home`, which is a script that is looked at: `STEM.log`, `STEM.why-NAME`, `STEM.calm-NAME` and
//!   `STEM.table-NAME` are wanted, as `hnlook log`, `hnlook why NAME`, `hnlook calm NAME` and `hnlook table NAME` write
//!   them.
//!
//! A line is written for each script, each datagram and each look, with its status.
#![tactic(auto)]

use hn_decode::decode;
use hn_io::{MemSink, MemSource};
use hn_lab::{DONE, Played, REFUSED, lab};
use hn_tlv::ListFault;
use hn_wire::MemWire;
use std::alloc::{AllocError, Global};
use std::io::{Error, ErrorKind};
use std::{fs, io};

/// What an input came to.
#[derive(Clone, Copy)]
struct Outcome {
    /// The status, as the program `hncp` or `hnlook` ends with it.
    status: u8,
    /// The number of the first line that is not that of the wanted text.
    other_line: Option<usize>,
}

/// The number of the first line in which two texts differ; `None` if they are the same.
fn other_line(text: &[u8], wanted: &[u8]) -> Option<usize> {
    let mut line = 1_usize;
    for (place, byte) in text.iter().enumerate() {
        if wanted.get(place) != Some(byte) {
            return Some(line);
        }
        if *byte == b'\n' {
            line = line.saturating_add(1);
        }
    }
    if text.len() == wanted.len() {
        None
    } else {
        Some(line)
    }
}

/// The status of a play; its world is let go.
fn status_of(played: Played) -> u8 {
    played.status
}

/// Plays a script.
fn played(alloc: Global, script: Vec<u8>, wanted: &[u8]) -> Outcome {
    let mut source = MemSource::new(script, Vec::new(alloc));
    let mut sink = MemSink::new(alloc, Vec::new(alloc));
    let mut wire = MemWire::new(alloc, Vec::new(alloc));
    let status = status_of(lab(alloc, &mut source, &mut sink, &mut wire, None));
    Outcome {
        status,
        other_line: other_line(sink.held(), wanted),
    }
}

/// Plays a script, and looks at its home.
fn looked(alloc: Global, words: &[String], script: Vec<u8>, wanted: &[u8]) -> Outcome {
    let mut source = MemSource::new(script, Vec::new(alloc));
    let mut sink = MemSink::new(alloc, Vec::new(alloc));
    let status = hn_look::run(alloc, words, &mut source, &mut sink);
    Outcome {
        status,
        other_line: other_line(sink.held(), wanted),
    }
}

/// Reads a datagram.
fn contents(alloc: Global, datagram: &[u8], wanted: &[u8]) -> io::Result<Outcome> {
    match decode(alloc, datagram) {
        Ok(text) => Ok(Outcome {
            status: DONE,
            other_line: other_line(text.as_bytes(), wanted),
        }),
        Err(ListFault::Malformed(fault)) => {
            let (place, why) = (fault.place, fault.why);
            let line = format!(in alloc; "malformed place={place} why={why}\n")?;
            Ok(Outcome {
                status: REFUSED,
                other_line: other_line(line.as_bytes(), wanted),
            })
        }
        Err(ListFault::NoMemory) => Err(Error::from(ErrorKind::OutOfMemory)),
    }
}

/// The octets that hexadecimal text writes, in which spaces and LF are skipped.
fn octets(alloc: Global, text: &str) -> io::Result<Vec<u8>> {
    let mut digits = String::new(alloc);
    for word in text.split_ascii_whitespace() {
        digits.push_str(word)?;
    }
    hex::decode(alloc, digits.as_str()).map_err(|_| Error::from(ErrorKind::InvalidData))
}

/// The words of the command line for a look: `why-NAME` is `hnlook why NAME`.
fn words_of(alloc: Global, look: &str) -> Result<Vec<String>, AllocError> {
    let mut words = Vec::new(alloc);
    words.push(String::from_str(alloc, "hnlook")?)?;
    for word in look.splitn(2, '-') {
        words.push(String::from_str(alloc, word)?)?;
    }
    Ok(words)
}

/// The octets of the file of a stem and a kind.
fn read(rt: &HostRuntime, stem: &str, kind: &str) -> io::Result<Vec<u8>> {
    let file = format!(in rt.alloc(); "{stem}.{kind}")?;
    fs::read(rt, file.as_str())
}

/// What a script comes to.
fn of_script(rt: &HostRuntime, stem: &str) -> io::Result<Outcome> {
    let script = read(rt, stem, "script")?;
    let wanted = read(rt, stem, "transcript")?;
    Ok(played(rt.alloc(), script, &wanted))
}

/// What a datagram comes to.
fn of_datagram(rt: &HostRuntime, stem: &str) -> io::Result<Outcome> {
    let text = fs::read_to_string(rt, format!(in rt.alloc(); "{stem}.hex")?.as_str())?;
    let datagram = octets(rt.alloc(), text.as_str())?;
    let wanted = read(rt, stem, "transcript")?;
    contents(rt.alloc(), &datagram, &wanted)
}

/// What a look at a home comes to.
fn of_look(rt: &HostRuntime, stem: &str, look: &str) -> io::Result<Outcome> {
    let script = read(rt, stem, "home")?;
    let wanted = read(rt, stem, look)?;
    let words = words_of(rt.alloc(), look)?;
    Ok(looked(rt.alloc(), &words, script, &wanted))
}

/// Whether a kind is that of the text of a look.
fn is_look(kind: &str) -> bool {
    kind == "log"
        || kind.starts_with("why-")
        || kind.starts_with("calm-")
        || kind.starts_with("table-")
}

/// What the file of a stem and a kind comes to; `None` if there is nothing to compare.
fn compared(rt: &HostRuntime, stem: &str, kind: &str) -> io::Result<Option<Outcome>> {
    match kind {
        "script" => Ok(Some(of_script(rt, stem)?)),
        "hex" => Ok(Some(of_datagram(rt, stem)?)),
        look if is_look(look) => Ok(Some(of_look(rt, stem, look)?)),
        _ => Ok(None),
    }
}

/// The names of the files of the folder, in ascending order.
fn files(rt: &HostRuntime) -> io::Result<Vec<String>> {
    let alloc = rt.alloc();
    let mut names = Vec::new(alloc);
    for entry in fs::read_dir(rt, ".")? {
        let entry = entry?;
        names.push(String::from_str(alloc, entry.file_name())?)?;
    }
    names.sort()?;
    Ok(names)
}

/// Writes the line of a file, if there is something to compare.
fn tell(rt: &HostRuntime, file: &str) -> io::Result<()> {
    let Some((stem, kind)) = file.rsplit_once('.') else {
        return Ok(());
    };
    let Some(outcome) = compared(rt, stem, kind)? else {
        return Ok(());
    };
    let status = outcome.status;
    match outcome.other_line {
        None => rt.println(format!(in rt.alloc(); "{file} {status}")?),
        Some(line) => rt.println(format!(in rt.alloc();
            "{file} {status}, and line {line} is not the wanted one"
        )?),
    }
}

fn main(rt: HostRuntime) -> io::Result<()> {
    for file in files(&rt)? {
        tell(&rt, file.as_str())?;
    }
    Ok(())
}
