//! The reading of a capture.

ghost use Rattle.std.specs.Prelude.{◌≡◌, ◌^◌, ◌<◌, ◌≤◌, ℕ, List, length, Err, OnOk, IfOk};
ghost use Rattle.hn_script.specs.declared.fault.ParseFault.TheVariants.{Script as Refused};
ghost use Rattle.hn_script.specs.declared.fault.ScriptFault.{ScriptFault};
ghost use Rattle.hn_script.specs.Texts.{lines_of};
ghost use Rattle.hn_watch.specs.Watch.{fed_of};
ghost use Rattle.hn_forms.specs.Watch.{IsCaptureLine, CaptureFault, CaptureFaultFrom};
ghost use Rattle.hn_forms.specs.Capture.{IsLineFed, IsFedBy};

use hn_script::{MALFORMED, ParseFault, ScriptFault, hex_word, next_line};
use hn_tlv::{ListFault, first_fault_is_unique};
use hn_watch::{Watch, held_after_malformed, lists_show};
use std::alloc::Global;

/// The most digits of a datagram, which has at most 65,507 bytes.
const MOST_DIGITS: usize = 131_014;

/// A line of a capture is too long.
const LONG: u8 = 5;

/// Feeds the datagram that a line of a capture writes.
///
/// # Errors
///
/// The fault of the line, or out of memory.
fn feed_line(alloc: Global, watch: &mut Watch, line: u32, text: &[u8]) -> Result<(), ParseFault>
    requires { fed_of watch.old < 2 ^ 32 }
    ensures fed { OnOk result ((datagram : List ℕ) × IsCaptureLine datagram text.now × IsLineFed datagram watch.old watch.new) }
    ensures refused { (fault : ScriptFault) → result ≡ Err (Refused fault) → (fault.line ≡ line) × CaptureFault text.now fault.code }
{
    if text.len() > MOST_DIGITS {
        return Err(ParseFault::Script(ScriptFault { line, code: LONG }));
    }
    let Some(datagram) = hex_word(alloc, text)? else {
        return Err(ParseFault::Script(ScriptFault {
            line,
            code: MALFORMED,
        }));
    };
    first_fault_is_unique();
    match watch.feed(alloc, datagram.as_slice()) {
        Ok(()) => Ok(()),
        Err(ListFault::Malformed(_)) => Ok(()),
        Err(ListFault::NoMemory) => Err(ParseFault::NoMemory),
    }
}

/// Feeds the datagrams of a capture, line by line.
///
/// # Errors
///
/// The first line with a fault, or out of memory.
pub fn read_capture(alloc: Global, bytes: &[u8]) -> Result<Watch, ParseFault>
    requires { length bytes.now ≤ 2 ^ 24 }
    ensures read { IfOk result (IsFedBy bytes.now) }
    ensures refused { (fault : ScriptFault) → result ≡ Err (Refused fault) → CaptureFaultFrom 1 (lines_of bytes.now) fault }
{
    lists_show();
    held_after_malformed();
    let mut watch = Watch::new(alloc);
    let mut rest = bytes;
    let mut line = 1;
    while let Some((text, others)) = next_line(rest) {
        feed_line(alloc, &mut watch, line, text)?;
        rest = others;
        line += 1;
    }
    Ok(watch)
}
