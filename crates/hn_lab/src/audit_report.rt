//! The report on whether a router is settled and quiet.

ghost use Rattle.std.specs.Prelude.{◌≡◌, IfOk, IsTrue, None, Some, string_bytes};
ghost use Rattle.hn_base.specs.Name.{name_text};
ghost use Rattle.hn_world.specs.Names.{member_named};
ghost use Rattle.hn_world.specs.Asked.{unless_running};
ghost use Rattle.hn_audit.specs.Reached.{runs};
ghost use Rattle.hn_lab.specs.AuditReports.{IsAudited, IsAuditLine};

use hn_audit::Audit;
use hn_base::{Name, NoMemory};
use hn_world::{Member, World};
use std::alloc::Global;

/// Whether a running router is settled, and where it is, whether it is quiet. One that is both is sound.
fn audited(
    alloc: Global,
    world: &World,
    name: &Name,
    member: &Member,
) -> Result<&'static str, NoMemory>
    requires named { member_named (name_text name.now) world.now.parts ≡ Some member.now }
    requires running { IsTrue (runs (name_text name.now) world.now.parts) }
    ensures { IfOk result (λ told. IsAudited world.now.parts member.now told.now) }
{
    if !world.settled(alloc, name)? {
        return Ok("settled=no");
    }
    if !world.quiet(alloc, name)? {
        return Ok("settled=yes quiet=no");
    }
    Ok("settled=yes quiet=yes sound=yes")
}

/// The line on whether a router is settled and quiet.
pub(crate) fn audit_line(
    alloc: Global,
    world: &World,
    name: &Name,
    member: &Member,
) -> Result<String, NoMemory>
    requires named { member_named (name_text name.now) world.now.parts ≡ Some member.now }
    requires running { unless_running member.now ≡ None }
    ensures { IfOk result (λ line. IsAuditLine name.now world.now.parts member.now (string_bytes line)) }
{
    let told = audited(alloc, world, name, member)?;
    Ok(format!(in alloc; "audit {name} {told}\n")?)
}
