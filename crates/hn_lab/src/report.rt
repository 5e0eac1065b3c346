//! Reports: what of a world is looked at, and its lines.

ghost use Rattle.std.specs.Prelude.{◌≡◌, ◌↔◌, ℕ, None, Some, Err, IfOk};
ghost use Rattle.hn_base.specs.Name.{name_text};
ghost use Rattle.hn_world.specs.Names.{member_named};
ghost use Rattle.hn_world.specs.declared.event.WorldFault.TheVariants as fault;
ghost use Rattle.hn_world.specs.Asked.{unless_running};
ghost use Rattle.hn_play.specs.Electing.{unless_on};
ghost use Rattle.hn_lab.specs.Report.{unless_about, unless_report, IsAbout, IsReport};

use crate::address_reports::addressed_line;
use crate::audit_report::audit_line;
use crate::ula_report::ulas_line;
use hn_base::{EpId, Letter, Name, NoMemory};
use hn_play::unless_on;
use hn_report::{
    addresses_lines, advert_line, compare_line, elect_line, hash_line, mail_line, prefixes_lines,
    show_line, used_lines,
};
use hn_streams::Lines;
use hn_world::{Member, STOPPED, UNKNOWN, World, WorldFault};
use std::alloc::Global;

/// What of a router is looked at.
#[derive(Clone, Copy)]
pub enum About {
    /// What it has arrived at.
    Show,
    /// Its network state hash.
    Hash,
    /// The delegated prefixes that it uses.
    Used,
    /// The prefixes that it has assigned.
    Prefixes,
    /// Who is elected for a capability on the link of an endpoint.
    Elect(EpId, Letter),
    /// What it advertises on an endpoint.
    Advert(EpId),
    /// Whether it is settled, quiet and sound.
    Audit,
    /// Its own addresses.
    Addresses,
    /// Whether its addresses and those of its set stay.
    Addressed,
    /// How many of its set have a local prefix.
    Ulas,
}

/// A report: what is looked at.
#[derive(Clone, Copy)]
pub enum Report {
    /// The router of a name.
    Router(Name, About),
    /// Two routers.
    Compare(Name, Name),
    /// The mail.
    Mail,
}

/// The code where a router is stopped.
fn unless_running(member: &Member) -> Option<u8>
    ensures { result ≡ unless_running member.now }
{
    if member.running { None } else { Some(STOPPED) }
}

/// The code where this is not told of a router.
fn unless_about(member: &Member, about: About) -> Option<u8>
    ensures { result ≡ unless_about about member.now }
{
    match about {
        About::Show => None,
        About::Elect(endpoint, _) => unless_on(member, endpoint),
        About::Advert(endpoint) => unless_on(member, endpoint),
        _ => unless_running(member),
    }
}

/// The code with which a report is refused.
fn unless_report(world: &World, report: &Report) -> Option<u8>
    ensures { result ≡ unless_report report.now world.now.parts }
{
    match report {
        Report::Router(name, about) => match world.member(name) {
            Some(member) => unless_about(member, *about),
            None => Some(UNKNOWN),
        },
        Report::Compare(left, right) => world.unless_both_run(left, right),
        Report::Mail => None,
    }
}

/// What is told of a router.
fn told_about(
    alloc: Global,
    world: &World,
    name: &Name,
    member: &Member,
    about: About,
) -> Result<Lines, NoMemory>
    requires named { member_named (name_text name.now) world.now.parts ≡ Some member.now }
    requires able { unless_about about member.now ≡ None }
    ensures { IfOk result (IsAbout about name.now world.now.parts member.now) }
{
    match about {
        About::Show => Lines::of(alloc, show_line(alloc, name, member)?),
        About::Hash => Lines::of(alloc, hash_line(alloc, name, member)?),
        About::Used => used_lines(alloc, name, member),
        About::Prefixes => prefixes_lines(alloc, name, member),
        About::Elect(e, letter) => Lines::of(alloc, elect_line(alloc, name, member, e, letter)?),
        About::Advert(e) => Lines::of(alloc, advert_line(alloc, name, member, e)?),
        About::Audit => Lines::of(alloc, audit_line(alloc, world, name, member)?),
        About::Addresses => addresses_lines(alloc, name, member),
        About::Addressed => Lines::of(alloc, addressed_line(alloc, world, name, member)?),
        About::Ulas => Lines::of(alloc, ulas_line(alloc, world, name, member)?),
    }
}

/// What a report tells.
fn told(alloc: Global, world: &World, report: &Report) -> Result<Lines, NoMemory>
    requires able { unless_report report.now world.now.parts ≡ None }
    ensures { IfOk result (IsReport report.now world.now.parts) }
{
    match report {
        Report::Router(name, about) => {
            let Some(member) = world.member(name) else {
                unreachable!()
            };
            told_about(alloc, world, name, member, *about)
        }
        Report::Compare(left, right) => {
            Lines::of(alloc, compare_line(alloc, world, left, right)?)
        }
        Report::Mail => Lines::of(alloc, mail_line(alloc, world)?),
    }
}

/// The lines of a report.
///
/// # Errors
///
/// It is refused, or memory ended.
pub(crate) fn reported(alloc: Global, world: &World, report: &Report) -> Result<Lines, WorldFault>
    ensures told { IfOk result (IsReport report.now world.now.parts) }
    ensures refused { (code : ℕ) → (result ≡ Err (fault.Refused code)) ↔ (unless_report report.now world.now.parts ≡ Some code) }
{
    if let Some(code) = unless_report(world, report) {
        return Err(WorldFault::Refused(code));
    }
    Ok(told(alloc, world, report)?)
}
