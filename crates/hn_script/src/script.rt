ghost use Rattle.std.specs.Prelude.{◌≡◌, ◌≤◌, ℕ, List, Option, [], ◌∷◌, ◌++◌, length, IfOk, IfErr, IfSome, IfNone, OnOk, Err};
ghost use Rattle.hn_script.specs.Entries.{IsEntry, AreLines, numbered, FaultFrom};
ghost use Rattle.hn_script.specs.Fault.{LineFault};
ghost use Rattle.hn_script.specs.Laws.{HasFaultOrScript, IsLimited};
ghost use Rattle.hn_script.specs.Line.{of_version, IsOfVersion};
ghost use Rattle.hn_script.specs.Script.{IsScript, IsFirstFault, FirstLineFault, script_text, first_line};
ghost use Rattle.hn_script.specs.Texts.{lines_of};
ghost use Rattle.hn_script.specs.declared.fault.ScriptFault.{ScriptFault as AScriptFault};
ghost use Rattle.hn_script.specs.declared.line.Line.{Line as ALine};
ghost use Rattle.hn_script.specs.declared.script.Script.{Script as AScript};

use crate::code::{LARGE, OPENING};
use crate::fault::{ParseFault, ReadFault, ScriptFault};
use crate::line::Line;
use crate::reader::{check_text, line_fault, read_text};
use crate::texts::next_line;
use crate::version::version_of;
use hn_base::{Bytes, NoMemory, Sequence, Version};
use std::alloc::Global;

/// The most bytes of a script, 2^24.
pub const SOURCE_LIMIT: usize = 16_777_216;

/// A script: the version of its language, and its lines with their numbers. The first line of the bytes, which tells
/// the version, has number 1 and is not among the lines; nor are those that are skipped.
#[derive(Drop)]
pub struct Script {
    pub version: Version,
    pub lines: Sequence<(u32, Line)>,
}

/// The script that these bytes are.
///
/// # Errors
///
/// `Script` with the first fault if and only if the bytes are no script, and `NoMemory` if memory runs out.
pub fn parse(alloc: Global, bytes: &[u8]) -> Result<Script, ParseFault>
    ensures script { IfOk result (λ script. IsScript script bytes.now) }
    ensures fault { (fault : AScriptFault) → result ≡ Err (ParseFault.Script fault) → IsFirstFault fault bytes.now }
{
    let (version, rest) = match opening(bytes) {
        Ok(found) => found,
        Err(fault) => return Err(ParseFault::Script(fault)),
    };
    let lines = read_lines(alloc, version, rest)?;
    Ok(Script { version, lines })
}

/// The line of this version that a text is, without its LF; `None` if and only if the text is skipped.
///
/// # Errors
///
/// `Code` with the fault of the text if and only if it is no line of the version, and `NoMemory` if memory runs out.
pub fn read_line(alloc: Global, version: Version, text: &[u8]) -> Result<Option<Line>, ReadFault>
    ensures entry { IfOk result (λ entry. IsEntry (of_version version) entry text.now) }
    ensures limited { IfOk result (λ entry. IfSome entry IsLimited) }
    ensures known { IfOk result (λ entry. IfSome entry (IsOfVersion version)) }
    ensures fault { (code : ℕ) → result ≡ Err (ReadFault.Code code) → LineFault (of_version version) text.now code }
{
    match read_text(version, text) {
        Ok(None) => Ok(None),
        Ok(Some(draft)) => {
            let line = draft.into_line(alloc)?;
            Ok(Some(line))
        }
        Err(code) => Err(ReadFault::Code(code)),
    }
}

/// The first fault of these bytes; `None` if and only if they are a script. Never allocates.
pub fn first_fault(bytes: &[u8]) -> Option<ScriptFault>
    ensures found { IfSome result (λ fault. IsFirstFault fault bytes.now) }
    ensures none { IfNone result ((script : AScript) × IsScript script bytes.now) }
    ensures decided { HasFaultOrScript bytes.now }
{
    match opening(bytes) {
        Ok((version, rest)) => fault_from(version, rest),
        Err(fault) => Some(fault),
    }
}

/// The version that the first line tells, and the bytes after that line.
fn opening(bytes: &[u8]) -> Result<(Version, &[u8]), ScriptFault>
    ensures small { IfOk result (λ _. length bytes.now ≤ SOURCE_LIMIT) }
    ensures shorter { IfOk result (λ found. length found.1.now ≤ length bytes.now) }
    ensures opened { IfOk result (λ found. lines_of bytes.now ≡ first_line found.0 ∷ lines_of found.1.now) }
    ensures refused { IfErr result (λ fault. IsFirstFault fault bytes.now) }
{
    if bytes.len() > SOURCE_LIMIT {
        return Err(ScriptFault {
            line: 0,
            code: LARGE,
        });
    }
    let Some((text, rest)) = next_line(bytes) else {
        return Err(ScriptFault {
            line: 1,
            code: OPENING,
        });
    };
    match first_line_of(text) {
        Ok(version) => Ok((version, rest)),
        Err(code) => Err(ScriptFault { line: 1, code }),
    }
}

/// The version that this first line tells.
fn first_line_of(text: &[u8]) -> Result<Version, u8>
    ensures told { IfOk result (λ version. text.now ≡ first_line version) }
    ensures refused { IfErr result (λ code. FirstLineFault text.now code) }
{
    check_text(text)?;
    version_of(text).ok_or(OPENING)
}

/// The lines of these bytes, of which the first has number 2.
fn read_lines(
    alloc: Global,
    version: Version,
    bytes: &[u8],
) -> Result<Sequence<(u32, Line)>, ParseFault>
    requires { length bytes.now ≤ SOURCE_LIMIT }
    ensures lines { IfOk result (λ lines. AreLines (of_version version) 2 (lines_of bytes.now) lines) }
    ensures fault { (fault : AScriptFault) → result ≡ Err (ParseFault.Script fault)
        → FaultFrom (of_version version) 2 (lines_of bytes.now) fault }
{
    let mut lines = Sequence::new(alloc);
    let mut number = 2;
    let mut rest = bytes;
    while let Some((text, others)) = next_line(rest) {
        push_line(alloc, &mut lines, version, number, text)?;
        number += 1;
        rest = others;
    }
    Ok(lines)
}

/// Adds the line of this number and text, unless it is skipped.
fn push_line(
    alloc: Global,
    lines: &mut Sequence<(u32, Line)>,
    version: Version,
    number: u32,
    text: &[u8],
) -> Result<(), ParseFault>
    ensures added { OnOk result ((entry : Option ALine) × IsEntry (of_version version) entry text.now
        × (lines.new ≡ lines.old ++ numbered number (entry ∷ []))) }
    ensures fault { (fault : AScriptFault) → result ≡ Err (ParseFault.Script fault)
        → LineFault (of_version version) text.now fault.code × (fault.line ≡ number) }
{
    match read_text(version, text) {
        Ok(None) => Ok(()),
        Ok(Some(draft)) => {
            let line = draft.into_line(alloc)?;
            lines.push((number, line))?;
            Ok(())
        }
        Err(code) => Err(ParseFault::Script(ScriptFault { line: number, code })),
    }
}

/// The first fault of the lines of these bytes, of which the first has number 2.
fn fault_from(version: Version, bytes: &[u8]) -> Option<ScriptFault>
    requires { length bytes.now ≤ SOURCE_LIMIT }
    ensures found { IfSome result (λ fault. FaultFrom (of_version version) 2 (lines_of bytes.now) fault) }
    ensures none { IfNone result ((lines : List (ℕ × ALine)) × AreLines (of_version version) 2 (lines_of bytes.now) lines) }
{
    let mut number = 2;
    let mut rest = bytes;
    while let Some((text, others)) = next_line(rest) {
        if let Some(code) = line_fault(version, text) {
            return Some(ScriptFault { line: number, code });
        }
        number += 1;
        rest = others;
    }
    None
}

/// The bytes of a script: its first line and its lines, each with an LF, and one space between words.
///
/// # Errors
///
/// Out of memory.
pub fn print(alloc: Global, script: &Script) -> Result<Bytes, NoMemory>
    ensures { IfOk result (λ bytes. bytes ≡ script_text script.now) }
{
    let mut text = String::new(alloc);
    match script.version {
        Version::One => text.push_str("hncp 1\n")?,
        Version::Two => text.push_str("hncp 2\n")?,
    }
    for (_, line) in script.lines.as_slice() {
        write!(text, "{line}\n")?;
    }
    Ok(Bytes::from(text.into_bytes()))
}
