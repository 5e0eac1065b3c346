//! The script of a soak.

ghost use Rattle.std.specs.Prelude.{◌≡◌, ◌*◌, ◌^◌, ◌<◌, ◌≤◌, ◌∷◌, [], Some, codes, map, length, IfOk, OnOk};
ghost use Rattle.hn_base.specs.NameText.{IsNameText};
ghost use Rattle.hn_script.specs.Field.{IsNameWord};
ghost use Rattle.hn_script.specs.Entries.{numbered};
ghost use Rattle.hn_script.specs.Script.{IsScript};
ghost use Rattle.hn_script.specs.Soak.{router_name, link_name, up_to, chance_texts, link_texts, upward_texts, router_texts, run_texts, report_texts, soak_text};
ghost use Rattle.hn_script.specs.SoakLines.{AddsLines};

use crate::laws::printed_is_read;
use crate::line::Line;
use crate::script::Script;
use hn_base::{EpId, Name, NoMemory, NodeId, Sequence, Version};
use hn_prefix::Prefix;
use std::alloc::Global;

/// The name of this text, which is one.
fn named(text: &[u8]) -> Name
    requires { IsNameText text.now }
    ensures { IsNameWord result text.now }
{
    match Name::new(text) {
        Some(name) => name,
        None => unreachable!(),
    }
}

/// The name of the router of this number.
fn router_name(alloc: Global, number: u32) -> Result<Name, NoMemory>
    ensures { IfOk result (λ name. IsNameWord name (router_name number)) }
{
    let text = format!(in alloc; "r{number}")?;
    Ok(named(text.as_bytes()))
}

/// The name of the link of this number.
fn link_name(alloc: Global, number: u32) -> Result<Name, NoMemory>
    ensures { IfOk result (λ name. IsNameWord name (link_name number)) }
{
    let text = format!(in alloc; "l{number}")?;
    Ok(named(text.as_bytes()))
}

/// The prefix that is delegated to the first router, 2001:db8::/56.
fn delegated() -> Prefix
    ensures { result ≡ record { bits = 0x20010db8 * 2 ^ 96; len = 56 } }
{
    match Prefix::new(0x2001_0db8 << 96, 56) {
        Ok(prefix) => prefix,
        Err(_) => unreachable!(),
    }
}

/// Adds the lines on chance: the seed, and of a hundred copies how many are lost.
fn add_chance(lines: &mut Sequence<Line>, seed: u64) -> Result<(), NoMemory>
    ensures { OnOk result (AddsLines (chance_texts seed) lines.old lines.new) }
{
    lines.push(Line::Seed(seed))?;
    lines.push(Line::Loss(10))
}

/// Adds the links.
fn add_links(alloc: Global, lines: &mut Sequence<Line>, n: u32) -> Result<(), NoMemory>
    requires { n ≤ 32 }
    ensures { OnOk result (AddsLines (up_to n link_texts) lines.old lines.new) }
{
    for k in 0..n {
        let name = link_name(alloc, k + 1)?;
        lines.push(Line::Link(name))?;
    }
    Ok(())
}

/// Adds endpoint 1 of a router, unless it is the first.
fn add_upward(alloc: Global, lines: &mut Sequence<Line>, name: Name, k: u32) -> Result<(), NoMemory>
    requires { IsNameWord name (router_name k) }
    ensures { OnOk result (AddsLines (upward_texts k) lines.old lines.new) }
{
    if k == 1 {
        return Ok(());
    }
    let link = link_name(alloc, k / 2)?;
    lines.push(Line::Attach(name, EpId(1), link))
}

/// Adds a router, with its endpoints.
fn add_router(alloc: Global, lines: &mut Sequence<Line>, k: u32) -> Result<(), NoMemory>
    ensures { OnOk result (AddsLines (router_texts k) lines.old lines.new) }
{
    let name = router_name(alloc, k)?;
    let link = link_name(alloc, k)?;
    lines.push(Line::Router(name, NodeId(k)))?;
    add_upward(alloc, lines, name, k)?;
    lines.push(Line::Attach(name, EpId(2), link))
}

/// Adds the routers.
fn add_routers(alloc: Global, lines: &mut Sequence<Line>, n: u32) -> Result<(), NoMemory>
    requires { n ≤ 32 }
    ensures { OnOk result (AddsLines (up_to n router_texts) lines.old lines.new) }
{
    for k in 0..n {
        add_router(alloc, lines, k + 1)?;
    }
    Ok(())
}

/// Adds the uplink of the first router, and the run.
fn add_run(alloc: Global, lines: &mut Sequence<Line>) -> Result<(), NoMemory>
    ensures { OnOk result (AddsLines run_texts lines.old lines.new) }
{
    let first = router_name(alloc, 1)?;
    lines.push(Line::External(first, delegated(), 7200, 3600))?;
    lines.push(Line::Run(60_000, 100))
}

/// Adds the reports on the first router and the last.
fn add_reports(alloc: Global, lines: &mut Sequence<Line>, n: u32) -> Result<(), NoMemory>
    ensures { OnOk result (AddsLines (report_texts n) lines.old lines.new) }
{
    let first = router_name(alloc, 1)?;
    let last = router_name(alloc, n)?;
    lines.push(Line::Compare(first, last))?;
    lines.push(Line::Audit(first))?;
    lines.push(Line::Used(first))?;
    lines.push(Line::Prefixes(first))?;
    lines.push(Line::Prefixes(last))?;
    lines.push(Line::Mail)?;
    lines.push(Line::Show(first))?;
    lines.push(Line::Show(last))
}

/// The lines with their numbers, which begin at 2.
fn numbered(alloc: Global, lines: Sequence<Line>) -> Result<Sequence<(u32, Line)>, NoMemory>
    requires { length lines ≤ 1000 }
    ensures { IfOk result (λ found. found ≡ numbered 2 (map Some lines)) }
{
    let mut found = Sequence::new(alloc);
    let mut number = 2;
    for line in lines.into_vec() {
        found.push((number, line))?;
        number += 1;
    }
    Ok(found)
}

/// The script of a soak: a tree of `n` routers, from 2 to 32, whose first one has an uplink, runs for 60 seconds and
/// loses a tenth of the copies; then the first router and the last are reported on. The seed is that of the random words.
/// docs/FORMATS.md has its lines.
///
/// # Errors
///
/// Out of memory.
pub fn soak_script(alloc: Global, n: u32, seed: u64) -> Result<Script, NoMemory>
    requires at_least { 2 ≤ n }
    requires at_most { n ≤ 32 }
    ensures { IfOk result (λ script. IsScript script (soak_text n seed)) }
{
    printed_is_read();
    let mut lines = Sequence::new(alloc);
    add_chance(&mut lines, seed)?;
    add_links(alloc, &mut lines, n)?;
    add_routers(alloc, &mut lines, n)?;
    add_run(alloc, &mut lines)?;
    add_reports(alloc, &mut lines, n)?;
    Ok(Script {
        version: Version::One,
        lines: numbered(alloc, lines)?,
    })
}
