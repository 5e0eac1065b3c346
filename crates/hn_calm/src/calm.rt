ghost use Rattle.std.specs.Prelude.{◌≡◌, ◌↔◌, IfOk, IsTrue, Some, string_bytes};
ghost use Rattle.hn_audit.specs.Quiet.{IsQuietByRules};
ghost use Rattle.hn_audit.specs.Reached.{runs};
ghost use Rattle.hn_audit.specs.Settled.{IsSettledByRules};
ghost use Rattle.hn_base.specs.Name.{name_text};
ghost use Rattle.hn_world.specs.Names.{member_named};
ghost use Rattle.hn_world.specs.declared.member.Member.{Member};
ghost use Rattle.hn_calm.specs.Text.{IsCalmText};

use crate::ended::last_before;
use crate::home::first_uncalm;
use crate::text::{calm_so, restless_so, uncalm_so};
use hn_audit::Audit;
use hn_base::{Name, NoMemory};
use hn_world::World;
use std::alloc::Global;

/// Whether a running router is settled and quiet.
fn rests(alloc: Global, name: &Name, world: &World) -> Result<bool, NoMemory>
    requires { IsTrue (runs (name_text name.now) world.now.parts) }
    ensures { IfOk result (λ answer. (r : Member) → member_named (name_text name.now) world.now.parts ≡ Some r
        → IsTrue answer ↔ (IsSettledByRules world.now.parts r × IsQuietByRules world.now.parts r)) }
{
    let settled = world.settled(alloc, name)?;
    let quiet = world.quiet(alloc, name)?;
    Ok(settled && quiet)
}

/// Whether the home of a running router is calm: a line of words, and a sentence. Of a calm home they tell the moment
/// before which it lasts. Of another they tell the first premise that is missing, in the order of the definition; where the
/// router is not settled or not quiet, they are followed by the text that tells why.
///
/// # Errors
///
/// Out of memory.
pub fn calm_text(alloc: Global, name: &Name, world: &World) -> Result<String, NoMemory>
    requires { IsTrue (runs (name_text name.now) world.now.parts) }
    ensures { IfOk result (λ text. IsCalmText (name_text name.now) world.now.parts (string_bytes text)) }
{
    let Some(r) = world.member(name) else {
        unreachable!()
    };
    if !rests(alloc, name, world)? {
        return restless_so(alloc, name, world);
    }
    match first_uncalm(alloc, world, r)? {
        Some(missing) => uncalm_so(alloc, name, &missing),
        None => {
            let end = last_before(alloc, world, r)?;
            calm_so(alloc, name, end)
        }
    }
}
