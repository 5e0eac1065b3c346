//! The report on delegated prefixes of routers' own making.

ghost use Rattle.std.specs.Prelude.{◌≡◌, ◌↔◌, None, Some, IfOk, IsTrue, All, filter, string_bytes};
ghost use Rattle.hn_base.specs.Name.{name_text};
ghost use Rattle.hn_world.specs.Names.{member_named};
ghost use Rattle.hn_world.specs.Asked.{unless_running};
ghost use Rattle.hn_audit.specs.Reached.{runs};
ghost use Rattle.hn_audit.specs.Set.{is_in_set};
ghost use Rattle.hn_ula.specs.Ula.{IsUlaStill};
ghost use Rattle.hn_lab.specs.UlaReports.{HasGenerated, HaveGenerated, IsUlasTold, IsUlasLine};

use crate::set::is_in_set;
use hn_audit::{Audit, settled_see_each_other};
use hn_base::{Name, NoMemory, NodeId};
use hn_rules::{entries_are_as_known, view_is_a_network};
use hn_ula::{has_generated, still};
use hn_world::{Member, World, always_sound};
use std::alloc::Global;

/// Whether a router would decide nothing anew, if it runs and has one of these identifiers.
fn is_still(alloc: Global, member: &Member, reach: &[NodeId]) -> Result<bool, NoMemory>
    ensures { IfOk result (λ answer. IsTrue answer ↔ (IsTrue (is_in_set reach.now member.now) → IsUlaStill member.now.router)) }
{
    if !is_in_set(member, reach) {
        return Ok(true);
    }
    still(alloc, &member.router)
}

/// Whether each running router of these identifiers would decide nothing anew.
fn all_still(alloc: Global, members: &[Member], reach: &[NodeId]) -> Result<bool, NoMemory>
    ensures { IfOk result (λ answer. IsTrue answer
        ↔ All (λ m. IsTrue (is_in_set reach.now m) → IsUlaStill m.router) members.now) }
{
    for member in members {
        if !is_still(alloc, member, reach)? {
            return Ok(false);
        }
    }
    Ok(true)
}

/// Whether a router runs, has one of these identifiers, and has a generated prefix.
fn generates(alloc: Global, member: &Member, reach: &[NodeId]) -> Result<bool, NoMemory>
    ensures { IfOk result (λ answer. IsTrue answer ↔ (IsTrue (is_in_set reach.now member.now) × HasGenerated member.now)) }
{
    if !is_in_set(member, reach) {
        return Ok(false);
    }
    has_generated(alloc, &member.router)
}

/// How many running routers of these identifiers have a generated prefix.
fn generated_by(alloc: Global, members: &[Member], reach: &[NodeId]) -> Result<usize, NoMemory>
    ensures { IfOk result (λ count. HaveGenerated (filter (is_in_set reach.now) members.now) count) }
{
    let mut count = 0;
    for member in members {
        if generates(alloc, member, reach)? {
            count += 1;
        }
    }
    Ok(count)
}

/// Whether a running router is settled, and where it is, whether its set is still, and how many have a prefix then.
fn ulas_text(alloc: Global, world: &World, name: &Name, member: &Member) -> Result<String, NoMemory>
    requires named { member_named (name_text name.now) world.now.parts ≡ Some member.now }
    requires running { IsTrue (runs (name_text name.now) world.now.parts) }
    ensures { IfOk result (λ told. IsUlasTold world.now.parts member.now (string_bytes told)) }
{
    always_sound();
    settled_see_each_other();
    view_is_a_network();
    entries_are_as_known();
    world.is_replayed();
    if !world.settled(alloc, name)? {
        return Ok(String::from_str(alloc, "settled=no")?);
    }
    let members = world.members();
    let reach = member.router.reach();
    if !all_still(alloc, members, reach)? {
        return Ok(String::from_str(alloc, "settled=yes still=no")?);
    }
    let count = generated_by(alloc, members, reach)?;
    Ok(format!(in alloc; "settled=yes still=yes count={count}")?)
}

/// The line on whether a router and those that it reaches are still, and how many have a generated prefix.
pub(crate) fn ulas_line(
    alloc: Global,
    world: &World,
    name: &Name,
    member: &Member,
) -> Result<String, NoMemory>
    requires named { member_named (name_text name.now) world.now.parts ≡ Some member.now }
    requires running { unless_running member.now ≡ None }
    ensures { IfOk result (λ line. IsUlasLine name.now world.now.parts member.now (string_bytes line)) }
{
    let told = ulas_text(alloc, world, name, member)?;
    Ok(format!(in alloc; "ulas {name} {told}\n")?)
}
