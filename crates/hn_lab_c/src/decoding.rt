//! What datagrams say, as `hncp` writes it.

ghost use Rattle.std.specs.Prelude.{◌≡◌, ◌≢◌, ◌≤◌, IfOk, string_bytes};
ghost use Rattle.hn_forms.specs.Decode.{malformed_line};
ghost use Rattle.hn_lab_c.specs.Looks.{HasNoRoomForText, IsDecoding, IsWatching, WritesText};

use crate::status::{DONE, NO_MEMORY, REFUSED};
use crate::texts::give;
use hn_base::NoMemory;
use hn_decode::decode;
use hn_forms::watch;
use hn_io::{MemSink, MemSource};
use hn_tlv::{ListFault, TlvFault};
use std::alloc::{AllocError, Global};

/// The line of bytes that are no list of TLVs.
fn malformed(alloc: Global, fault: TlvFault) -> Result<String, AllocError>
    ensures { IfOk result (λ line. string_bytes line ≡ malformed_line fault.place fault.why) }
{
    let place = fault.place;
    let why = fault.why;
    format!(in alloc; "malformed place={place} why={why}\n")
}

/// The contents of a datagram, or the line of its first fault.
fn contents(alloc: Global, datagram: &[u8]) -> Result<String, NoMemory>
    ensures { IfOk result (λ text. IsDecoding datagram.now (string_bytes text)) }
{
    match decode(alloc, datagram) {
        Ok(text) => Ok(text),
        Err(ListFault::Malformed(fault)) => {
            let line = malformed(alloc, fault)?;
            Ok(line)
        }
        Err(ListFault::NoMemory) => Err(NoMemory),
    }
}

/// The contents of a datagram, or the line of its first fault, as `hncp decode` writes it: how many bytes the text has, and
/// these, where there is room.
#[unsafe(no_mangle)]
pub extern "C" fn hn_decode(
    alloc: Global,
    datagram: &[u8],
    count: &mut usize,
    room: &mut [u8],
) -> u8
    ensures text { result ≡ 0 → WritesText (IsDecoding datagram.now) count.new room.old room.new }
    ensures no_room { result ≡ 2 → HasNoRoomForText (IsDecoding datagram.now) count.new room.old }
    ensures as_before { result ≢ 0 → room.new ≡ room.old }
    ensures status { result ≤ 2 }
{
    let Ok(text) = contents(alloc, datagram) else {
        return NO_MEMORY;
    };
    give(text.as_bytes(), count, room)
}

/// What the datagrams of a capture claim, or the line of its first fault.
fn watched(alloc: Global, capture: &[u8]) -> Result<MemSink, NoMemory>
    ensures { IfOk result (λ text. IsWatching capture.now text.held) }
{
    let mut source = MemSource::new(Vec::from_slice(alloc, capture)?, Vec::new(alloc));
    let mut text = MemSink::new(alloc, Vec::new(alloc));
    let status = watch(alloc, &mut source, &mut text);
    if status != DONE && status != REFUSED {
        return Err(NoMemory);
    }
    Ok(text)
}

/// What the datagrams of a capture claim, or the line of its first fault, as `hncp watch` writes it: how many bytes the text
/// has, and these, where there is room. A capture has a line in hexadecimal for each datagram.
#[unsafe(no_mangle)]
pub extern "C" fn hn_watch(alloc: Global, capture: &[u8], count: &mut usize, room: &mut [u8]) -> u8
    ensures text { result ≡ 0 → WritesText (IsWatching capture.now) count.new room.old room.new }
    ensures no_room { result ≡ 2 → HasNoRoomForText (IsWatching capture.now) count.new room.old }
    ensures as_before { result ≢ 0 → room.new ≡ room.old }
    ensures status { result ≤ 2 }
{
    let Ok(text) = watched(alloc, capture) else {
        return NO_MEMORY;
    };
    give(text.held(), count, room)
}
