//! The reports on delegated prefixes, assigned prefixes and elections.

ghost use Rattle.std.specs.Prelude.{◌≡◌, ◌++◌, map, IfOk, OnOk, string_bytes};
ghost use Rattle.hn_report.specs.PrefixReports.{use_line, used_lines, AreUsedLines, published_text, prefix_line, prefixes_lines, elected_text, IsElectLine};

use hn_assign::Assigned;
use hn_base::{EpId, Letter, Name, NoMemory, NodeId, yes_no};
use hn_deleg::{Delegated, whole_seconds};
use hn_script::letter_text;
use hn_streams::Lines;
use hn_world::Member;
use std::alloc::{AllocError, Global};

/// The line on a delegated prefix that a router uses.
fn use_line(alloc: Global, name: &Name, d: &Delegated) -> Result<String, AllocError>
    ensures { IfOk result (λ line. string_bytes line ≡ use_line name.now d.now) }
{
    let prefix = d.prefix.text();
    let valid = whole_seconds(d.valid);
    let preferred = whole_seconds(d.preferred);
    format!(in alloc; "use {name} {prefix} valid={valid} preferred={preferred}\n")
}

/// The lines on these delegated prefixes.
fn lines_on(alloc: Global, name: &Name, used: &[Delegated]) -> Result<Lines, NoMemory>
    ensures { IfOk result (λ lines. lines ≡ used_lines name.now used.now) }
{
    let mut lines = Lines::new(alloc);
    let count = used.len();
    lines.push(format!(in alloc; "used {name} {count}\n")?)?;
    for d in used {
        lines.push(use_line(alloc, name, d)?)?;
    }
    Ok(lines)
}

/// The lines on the delegated prefixes that a router uses.
pub fn used_lines(alloc: Global, name: &Name, member: &Member) -> Result<Lines, NoMemory>
    ensures { IfOk result (AreUsedLines name.now member.now) }
{
    let used = member.router.used(alloc)?;
    lines_on(alloc, name, used.as_slice())
}

/// The priority of an assignment that is published.
fn published_text(alloc: Global, published: Option<u8>) -> Result<String, AllocError>
    ensures { IfOk result (λ text. string_bytes text ≡ published_text published) }
{
    match published {
        None => String::from_str(alloc, "no"),
        Some(priority) => format!(in alloc; "{priority}"),
    }
}

/// The line on an assignment.
fn prefix_line(alloc: Global, name: &Name, c: &Assigned) -> Result<String, AllocError>
    ensures { IfOk result (λ line. string_bytes line ≡ prefix_line name.now c.now) }
{
    let EpId(e) = c.endpoint;
    let delegated = c.delegated.text();
    let prefix = c.prefix.text();
    let published = published_text(alloc, c.published)?;
    let applied = yes_no(c.applied);
    format!(in alloc;
        "prefix {name} ep={e} in={delegated} is={prefix} published={published} applied={applied}\n"
    )
}

/// Adds a line on each assignment.
fn add_prefix_lines(
    alloc: Global,
    lines: &mut Lines,
    name: &Name,
    assigned: &[Assigned],
) -> Result<(), NoMemory>
    ensures { OnOk result (lines.new ≡ lines.old ++ map (prefix_line name.now) assigned.now) }
{
    for c in assigned {
        lines.push(prefix_line(alloc, name, c)?)?;
    }
    Ok(())
}

/// The lines on the prefixes that a router has assigned.
pub fn prefixes_lines(alloc: Global, name: &Name, member: &Member) -> Result<Lines, NoMemory>
    ensures { IfOk result (λ lines. lines ≡ prefixes_lines name.now member.now) }
{
    let assigned = member.router.held().assigned.as_slice();
    let mut lines = Lines::new(alloc);
    let count = assigned.len();
    lines.push(format!(in alloc; "prefixes {name} {count}\n")?)?;
    add_prefix_lines(alloc, &mut lines, name, assigned)?;
    Ok(lines)
}

/// Who is elected, if somebody is.
fn elected_text(alloc: Global, who: Option<NodeId>) -> Result<String, AllocError>
    ensures { IfOk result (λ text. string_bytes text ≡ elected_text who) }
{
    match who {
        None => String::from_str(alloc, "none"),
        Some(node) => format!(in alloc; "{node}"),
    }
}

/// The line on an election.
pub fn elect_line(
    alloc: Global,
    name: &Name,
    member: &Member,
    endpoint: EpId,
    letter: Letter,
) -> Result<String, NoMemory>
    ensures { IfOk result (λ line. IsElectLine name.now endpoint letter member.now (string_bytes line)) }
{
    let who = member.router.elected(alloc, endpoint, letter)?;
    let EpId(e) = endpoint;
    let letter = letter_text(letter);
    let text = elected_text(alloc, who)?;
    Ok(format!(in alloc; "elect {name} {e} {letter} {text}\n")?)
}
