//! The lines on what routers noted.

ghost use Rattle.std.specs.Prelude.{◌≡◌, ◌++◌, IfOk, OnOk, map, string_bytes};
ghost use Rattle.hn_play.specs.Notes.{took_text, note_text, note_line};
ghost use Rattle.hn_play.specs.Tells.{note_lines};

use hn_base::{Name, NoMemory};
use hn_rules::Note;
use hn_store::Took;
use hn_streams::Lines;
use std::alloc::{AllocError, Global};

/// What came of the state of another node.
fn took_text(how: Took) -> &'static str
    ensures { result.now ≡ took_text how }
{
    match how {
        Took::Kept => "kept",
        Took::Renumbered => "renumbered",
        Took::Ask => "ask",
        Took::Stale => "stale",
        Took::BadHash => "badhash",
        Took::BadBody => "badbody",
        Took::TooLong => "long",
        Took::Full => "full",
        Took::Own => "own",
    }
}

/// What a router noted.
fn note_text(alloc: Global, note: &Note) -> Result<String, AllocError>
    ensures { IfOk result (λ text. string_bytes text ≡ note_text note.now) }
{
    match *note {
        Note::Far => String::from_str(alloc, "far"),
        Note::Malformed { place, why } => { format!(in alloc; "malformed place={place} why={why}") }
        Note::Ignored { kind, why } => format!(in alloc; "ignored kind={kind} why={why}"),
        Note::Took { node, how } => {
            let how = took_text(how);
            format!(in alloc; "took node={node} {how}")
        }
        Note::Own { number } => format!(in alloc; "own number={number}"),
        Note::PeersFull => String::from_str(alloc, "peers-full"),
        Note::Refused => String::from_str(alloc, "refused"),
    }
}

/// The line on a note of the router of a name.
///
/// # Errors
///
/// Out of memory, as `AllocError`.
pub fn note_line(alloc: Global, name: &Name, note: &Note) -> Result<String, AllocError>
    ensures { IfOk result (λ line. string_bytes line ≡ note_line name.now note.now) }
{
    let text = note_text(alloc, note)?;
    format!(in alloc; "note {name} {text}\n")
}

/// A line of text for each note of the router of a name, if there is one.
pub fn note_lines(alloc: Global, name: Option<Name>, notes: &[Note]) -> Result<Lines, NoMemory>
    ensures { IfOk result (λ lines. lines ≡ note_lines name notes.now) }
{
    let mut lines = Lines::new(alloc);
    if let Some(name) = name {
        add_notes(alloc, &mut lines, &name, notes)?;
    }
    Ok(lines)
}

/// Adds a line for each note.
fn add_notes(alloc: Global, lines: &mut Lines, name: &Name, notes: &[Note]) -> Result<(), NoMemory>
    ensures { OnOk result (lines.new ≡ lines.old ++ map (note_line name.now) notes.now) }
{
    for note in notes {
        lines.push(note_line(alloc, name, note)?)?;
    }
    Ok(())
}
