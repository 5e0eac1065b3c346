//! The reports on the addresses of routers.

ghost use Rattle.std.specs.Prelude.{◌≡◌, ◌↔◌, None, Some, IfOk, IsTrue, All, string_bytes};
ghost use Rattle.hn_addr.specs.Addresses.{IsAddressStill};
ghost use Rattle.hn_base.specs.Name.{name_text};
ghost use Rattle.hn_world.specs.Names.{member_named};
ghost use Rattle.hn_world.specs.Asked.{unless_running};
ghost use Rattle.hn_audit.specs.Reached.{runs};
ghost use Rattle.hn_audit.specs.Set.{is_in_set};
ghost use Rattle.hn_lab.specs.AddressReports.{IsAddressed, IsAddressedLine};

use crate::set::is_in_set;
use hn_addr::{still, still_addresses_stay};
use hn_audit::{Audit, settled_see_each_other};
use hn_base::{Name, NoMemory, NodeId};
use hn_rules::{own_addresses_are_said, own_version_is_said};
use hn_world::{Member, World, always_sound};
use std::alloc::Global;

/// Whether a router would choose nothing anew, if it runs and has one of these identifiers.
fn is_still(alloc: Global, member: &Member, reach: &[NodeId]) -> Result<bool, NoMemory>
    ensures { IfOk result (λ answer. IsTrue answer
        ↔ (IsTrue (is_in_set reach.now member.now) → IsAddressStill member.now.router)) }
{
    if !is_in_set(member, reach) {
        return Ok(true);
    }
    still(alloc, &member.router)
}

/// Whether each running router of these identifiers would choose nothing anew.
fn all_still(alloc: Global, members: &[Member], reach: &[NodeId]) -> Result<bool, NoMemory>
    ensures { IfOk result (λ answer. IsTrue answer
        ↔ All (λ m. IsTrue (is_in_set reach.now m) → IsAddressStill m.router) members.now) }
{
    for member in members {
        if !is_still(alloc, member, reach)? {
            return Ok(false);
        }
    }
    Ok(true)
}

/// Whether a running router is settled, and where it is, whether its set is still. Then no address is published twice.
fn addressed(
    alloc: Global,
    world: &World,
    name: &Name,
    member: &Member,
) -> Result<&'static str, NoMemory>
    requires named { member_named (name_text name.now) world.now.parts ≡ Some member.now }
    requires running { IsTrue (runs (name_text name.now) world.now.parts) }
    ensures { IfOk result (λ told. IsAddressed world.now.parts member.now told.now) }
{
    always_sound();
    settled_see_each_other();
    own_version_is_said();
    own_addresses_are_said();
    still_addresses_stay();
    world.is_replayed();
    if !world.settled(alloc, name)? {
        return Ok("settled=no");
    }
    if !all_still(alloc, world.members(), member.router.reach())? {
        return Ok("settled=yes still=no");
    }
    Ok("settled=yes still=yes alone=yes")
}

/// The line on whether a router and those that it reaches are still.
pub(crate) fn addressed_line(
    alloc: Global,
    world: &World,
    name: &Name,
    member: &Member,
) -> Result<String, NoMemory>
    requires named { member_named (name_text name.now) world.now.parts ≡ Some member.now }
    requires running { unless_running member.now ≡ None }
    ensures { IfOk result (λ line. IsAddressedLine name.now world.now.parts member.now (string_bytes line)) }
{
    let told = addressed(alloc, world, name, member)?;
    Ok(format!(in alloc; "addressed {name} {told}\n")?)
}
