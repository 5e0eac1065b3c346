//! The file of a single node: the priorities of its capabilities, and the prefixes that are delegated to it.

ghost use Rattle.std.specs.Prelude.{◌≡◌, ◌≤◌, ◌∷◌, [], ◌++◌, Option, codes, length, IfOk, IfErr, OnOk, Err};
ghost use Rattle.hn_base.specs.declared.version.Version.TheVariants.{One};
ghost use Rattle.hn_script.specs.Entries.{IsEntry, AreLines, numbered, FaultFrom};
ghost use Rattle.hn_script.specs.Fault.{LineFault};
ghost use Rattle.hn_script.specs.Field.{Number, Prefixed};
ghost use Rattle.hn_script.specs.Line.{priority as priority_field, lifetime as lifetime_field};
ghost use Rattle.hn_script.specs.NodeFile.{of_node, IsNodeFile, IsFirstNodeFault, NodeFirstLineFault};
ghost use Rattle.hn_script.specs.Reading.{ReadsFields, ReadsLine, ReadsNodeText};
ghost use Rattle.hn_script.specs.Script.{first_line};
ghost use Rattle.hn_script.specs.Texts.{lines_of, words_of};
ghost use Rattle.hn_script.specs.declared.fault.ScriptFault.{ScriptFault as AScriptFault};
ghost use Rattle.hn_script.specs.declared.node_file.NodeLine.{NodeLine as ANodeLine};

use crate::code::{COUNT, LARGE, OPENING, UNKNOWN};
use crate::fault::{ParseFault, ScriptFault};
use crate::fields::{lifetime, prefix, priority};
use crate::reader::check_text;
use crate::script::SOURCE_LIMIT;
use crate::texts::{next_line, next_word};
use crate::version::first_line;
use crate::words::{four_words, three_words};
use hn_base::{Caps, NoMemory, Sequence, Version};
use hn_prefix::Prefix;
use std::alloc::Global;

/// A line of a node file.
#[derive(Drop)]
pub enum NodeLine {
    /// The node's capabilities become these, each from 0 to 7 (RFC 7788, section 10.1).
    Caps(Caps),
    /// The node has this delegated prefix, with its valid and its preferred lifetime in seconds, of which the second is
    /// not above the first; 4294967295 is one that never ends (RFC 7788, section 10.2.1).
    External(Prefix, u32, u32),
}

/// Four priorities.
fn capabilities(rest: &[u8]) -> Result<Caps, u8>
    ensures { ReadsFields 4
        (λ found. priority_field found.m ∷ priority_field found.p ∷ priority_field found.h ∷ priority_field found.l ∷ [])
        (words_of rest.now) result }
{
    let Some((m, p, h, l)) = four_words(rest) else {
        return Err(COUNT);
    };
    Ok(Caps {
        m: priority(m)?,
        p: priority(p)?,
        h: priority(h)?,
        l: priority(l)?,
    })
}

/// A prefix and two lifetimes, of which the second is not above the first.
fn uplink(rest: &[u8]) -> Result<(Prefix, u32, u32), u8>
    ensures { ReadsFields 3 (λ found. Prefixed found.0 ∷ lifetime_field found.1 ∷ Number 0 found.1 found.2 ∷ [])
        (words_of rest.now) result }
{
    let Some((first, valid, preferred)) = three_words(rest) else {
        return Err(COUNT);
    };
    let prefix = prefix(first)?;
    let valid = lifetime(valid, u32::MAX)?;
    Ok((prefix, valid, lifetime(preferred, valid)?))
}

/// The line of the word `caps` and the words in `rest`.
fn read_capabilities(rest: &[u8]) -> Result<NodeLine, u8>
    ensures { ReadsLine of_node (codes "caps") (words_of rest.now) result }
{
    Ok(NodeLine::Caps(capabilities(rest)?))
}

/// The line of the word `external` and the words in `rest`.
fn read_uplink(rest: &[u8]) -> Result<NodeLine, u8>
    ensures { ReadsLine of_node (codes "external") (words_of rest.now) result }
{
    let (prefix, valid, preferred) = uplink(rest)?;
    Ok(NodeLine::External(prefix, valid, preferred))
}

/// The line of this first word and the words in `rest`.
fn read_node_line(word: &[u8], rest: &[u8]) -> Result<NodeLine, u8>
    ensures { ReadsLine of_node word.now (words_of rest.now) result }
{
    if word == b"caps".as_slice() {
        return read_capabilities(rest);
    }
    if word == b"external".as_slice() {
        return read_uplink(rest);
    }
    Err(UNKNOWN)
}

/// What the text of a line gives: a line of a node file, or nothing if it is skipped.
fn read_node_text(text: &[u8]) -> Result<Option<NodeLine>, u8>
    ensures { ReadsNodeText text.now result }
{
    check_text(text)?;
    let Some((word, rest)) = next_word(text) else {
        return Ok(None);
    };
    if word[0] == b'#' {
        return Ok(None);
    }
    let line = read_node_line(word, rest)?;
    Ok(Some(line))
}

/// Adds the line of this number and text, unless it is skipped.
fn push_node_line(
    lines: &mut Sequence<(u32, NodeLine)>,
    number: u32,
    text: &[u8],
) -> Result<(), ParseFault>
    ensures added { OnOk result ((entry : Option ANodeLine) × IsEntry of_node entry text.now
        × (lines.new ≡ lines.old ++ numbered number (entry ∷ []))) }
    ensures fault { (fault : AScriptFault) → result ≡ Err (ParseFault.Script fault)
        → LineFault of_node text.now fault.code × (fault.line ≡ number) }
{
    match read_node_text(text) {
        Ok(None) => Ok(()),
        Ok(Some(line)) => {
            lines.push((number, line))?;
            Ok(())
        }
        Err(code) => Err(ParseFault::Script(ScriptFault { line: number, code })),
    }
}

/// The lines of these bytes, of which the first has number 2.
fn read_node_lines(alloc: Global, bytes: &[u8]) -> Result<Sequence<(u32, NodeLine)>, ParseFault>
    requires { length bytes.now ≤ SOURCE_LIMIT }
    ensures lines { IfOk result (λ lines. AreLines of_node 2 (lines_of bytes.now) lines) }
    ensures fault { (fault : AScriptFault) → result ≡ Err (ParseFault.Script fault)
        → FaultFrom of_node 2 (lines_of bytes.now) fault }
{
    let mut lines = Sequence::new(alloc);
    let mut number = 2;
    let mut rest = bytes;
    while let Some((text, others)) = next_line(rest) {
        push_node_line(&mut lines, number, text)?;
        number += 1;
        rest = others;
    }
    Ok(lines)
}

/// Nothing, unless this is not the first line of a node file.
fn check_first_line(text: &[u8]) -> Result<(), u8>
    ensures told { OnOk result (text.now ≡ first_line One) }
    ensures refused { IfErr result (λ code. NodeFirstLineFault text.now code) }
{
    check_text(text)?;
    if text == first_line(Version::One) {
        return Ok(());
    }
    Err(OPENING)
}

/// The bytes after the first line.
fn after_first_line(bytes: &[u8]) -> Result<&[u8], ScriptFault>
    ensures small { IfOk result (λ _. length bytes.now ≤ SOURCE_LIMIT) }
    ensures shorter { IfOk result (λ rest. length rest.now ≤ length bytes.now) }
    ensures opened { IfOk result (λ rest. lines_of bytes.now ≡ first_line One ∷ lines_of rest.now) }
    ensures refused { IfErr result (λ fault. IsFirstNodeFault fault bytes.now) }
{
    if bytes.len() > SOURCE_LIMIT {
        return Err(ScriptFault {
            line: 0,
            code: LARGE,
        });
    }
    let Some((text, rest)) = next_line(bytes) else {
        return Err(ScriptFault {
            line: 1,
            code: OPENING,
        });
    };
    match check_first_line(text) {
        Ok(()) => Ok(rest),
        Err(code) => Err(ScriptFault { line: 1, code }),
    }
}

/// The lines of the node file that these bytes are, with their numbers.
///
/// # Errors
///
/// `Script` with the first fault if and only if the bytes are no node file, and `NoMemory` if memory runs out.
pub fn parse_node_file(alloc: Global, bytes: &[u8]) -> Result<Sequence<(u32, NodeLine)>, ParseFault>
    ensures file { IfOk result (λ lines. IsNodeFile lines bytes.now) }
    ensures fault { (fault : AScriptFault) → result ≡ Err (ParseFault.Script fault)
        → IsFirstNodeFault fault bytes.now }
{
    match after_first_line(bytes) {
        Ok(rest) => read_node_lines(alloc, rest),
        Err(fault) => Err(ParseFault::Script(fault)),
    }
}
