//! The state of a router.

ghost use Rattle.std.specs.Prelude.{◌≡◌, ◌≢◌, ◌↔◌, ◌≤◌, None, Some, IfSome, IfNone, IfOk};
ghost use Rattle.hn_base.specs.Name.{name_text};
ghost use Rattle.hn_lab_c.specs.Looks.{AreAuditedOf, IsStateOut};
ghost use Rattle.hn_world.specs.Names.{member_named};
ghost use Rattle.hn_world.specs.declared.member.Member.{Member as AMember};

use crate::asked::named;
use crate::handle::Handle;
use crate::kinds::{State, state_out};
use crate::status::{DONE, NO_MEMORY, REFUSED};
use hn_audit::Audit;
use hn_base::{Name, NoMemory};
use hn_world::World;
use std::alloc::Global;

/// Whether a router is settled, and quiet; neither where it is stopped.
fn audited(alloc: Global, world: &World, name: &Name) -> Result<(bool, bool), NoMemory>
    ensures { IfOk result (λ found. (r : AMember) → member_named (name_text name.now) world.now.parts ≡ Some r
        → AreAuditedOf r.running world.now.parts r found.0 found.1) }
{
    if !world.running(name) {
        return Ok((false, false));
    }
    Ok((world.settled(alloc, name)?, world.quiet(alloc, name)?))
}

/// The router of a name.
fn tell(alloc: Global, world: &World, name: &[u8], out: &mut State) -> u8
    ensures state { result ≡ 0 → IsStateOut name.now world.now.parts out.new }
    ensures unknown { result ≡ 2 ↔ (member_named name.now world.now.parts ≡ None) }
    ensures as_before { result ≢ 0 → out.new ≡ out.old }
    ensures status { result ≤ 2 }
{
    let Some(name) = named(world, name) else {
        return REFUSED;
    };
    let Some(member) = world.member(&name) else {
        return REFUSED;
    };
    let Ok((settled, quiet)) = audited(alloc, world, &name) else {
        return NO_MEMORY;
    };
    *out = state_out(member, settled, quiet);
    DONE
}

/// The router of a name.
#[unsafe(no_mangle)]
pub extern "C" fn hn_lab_state(
    alloc: Global,
    lab: &mut Handle,
    name: &[u8],
    state: &mut State,
) -> u8
    ensures kept { lab.new.held ≡ lab.old.held }
    ensures state { result ≡ 0 → IfSome lab.old.held (λ play. IsStateOut name.now play.world state.new) }
    ensures unknown { IfSome lab.old.held (λ play. result ≡ 2 ↔ (member_named name.now play.world ≡ None)) }
    ensures none { IfNone lab.old.held (result ≡ 2) }
    ensures as_before { result ≢ 0 → state.new ≡ state.old }
    ensures status { result ≤ 2 }
{
    let Some(play) = lab.take(alloc) else {
        return REFUSED;
    };
    let status = tell(alloc, play.world(), name, state);
    *lab = Handle::of(play);
    status
}
