ghost use Rattle.std.specs.Prelude.{◌≡◌, IfOk, IsTrue, string_bytes};
ghost use Rattle.hn_audit.specs.Reached.{runs};
ghost use Rattle.hn_base.specs.Name.{name_text};
ghost use Rattle.hn_why.specs.Why.{quiet_text, unquiet_text, unsettled_text, IsWhy};

use crate::{unquiet, unsettled};
use hn_audit::{Audit, Unquiet, Unsettled};
use hn_base::{Name, NoMemory};
use hn_world::World;
use std::alloc::Global;

/// What is said of a router that is settled and quiet.
fn quiet_text(alloc: Global, name: &Name) -> Result<String, NoMemory>
    ensures { IfOk result (λ text. string_bytes text ≡ quiet_text (name_text name.now)) }
{
    let text = format!(in alloc;
        "why {name} settled=yes quiet=yes\n{name} is settled and quiet: all that it reaches agree, and no assignment would change.\n"
    )?;
    Ok(text)
}

/// What is said of a router that is settled and not quiet.
fn unquiet_text(alloc: Global, name: &Name, why: &Unquiet) -> Result<String, NoMemory>
    ensures { IfOk result (λ text. string_bytes text ≡ unquiet_text (name_text name.now) why.now) }
{
    let mut text = format!(in alloc; "why {name} settled=yes quiet=no cause=")?;
    unquiet::push_said(&mut text, why)?;
    Ok(text)
}

/// What is said of a router that is not settled.
fn unsettled_text(
    alloc: Global,
    name: &Name,
    world: &World,
    why: &Unsettled,
) -> Result<String, NoMemory>
    ensures { IfOk result (λ text. string_bytes text ≡ unsettled_text (name_text name.now) world.now.parts why.now) }
{
    let mut text = format!(in alloc; "why {name} settled=no cause=")?;
    unsettled::push_said(&mut text, name, world, why)?;
    Ok(text)
}

/// Whether a running router is settled and quiet, and if not, why: a line of words, and a sentence. The cause is the first
/// one in the order of the definition.
///
/// # Errors
///
/// Out of memory.
pub fn why_text(alloc: Global, name: &Name, world: &World) -> Result<String, NoMemory>
    requires { IsTrue (runs (name_text name.now) world.now.parts) }
    ensures { IfOk result (λ text. IsWhy (name_text name.now) world.now.parts (string_bytes text)) }
{
    match world.unsettled(alloc, name)? {
        Some(why) => unsettled_text(alloc, name, world, &why),
        None => match world.unquiet(alloc, name)? {
            Some(why) => unquiet_text(alloc, name, &why),
            None => quiet_text(alloc, name),
        },
    }
}
