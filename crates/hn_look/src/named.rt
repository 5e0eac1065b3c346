//! Looks at the router of a name.

ghost use Rattle.std.specs.Prelude.{◌≡◌, ◌⊎◌, ℕ, List, Err, IfOk};
ghost use Rattle.hn_base.specs.Name.{name_text};
ghost use Rattle.hn_io.specs.Faults.{IsCaused};
ghost use Rattle.hn_look.specs.Look.{Refuses, Says, SeesCalm, SeesTable, SeesWhy, Looked};

use crate::status::{DONE, REFUSED};
use hn_base::Name;
use hn_calm::calm_text;
use hn_io::{IoFault, Sink};
use hn_streams::{write_piece, write_refusal};
use hn_table::table_text;
use hn_why::why_text;
use hn_world::{UNKNOWN, World};
use std::alloc::Global;

/// Writes that the name is refused. Answers the status.
fn refuse<K: Sink>(alloc: Global, code: u8, out: &mut K) -> Result<u8, IoFault>
    ensures looked { Looked Unit (Refuses code) result (K.held out.old) (K.held out.new) }
    ensures status { IfOk result (λ status. status ≡ 2) }
    ensures caused { IsCaused (result ≡ Err IoFault.Failed) (K.faults out.old) (K.faults out.new)
        (K.never_fails out.old) (K.never_fails out.new) }
{
    write_refusal(alloc, out, 0, code)?;
    Ok(REFUSED)
}

/// Writes a text. Answers the status.
fn say<K: Sink>(text: &str, out: &mut K) -> Result<u8, IoFault>
    ensures looked { Looked Unit (Says text.now) result (K.held out.old) (K.held out.new) }
    ensures status { IfOk result (λ status. status ≡ 0) }
    ensures caused { IsCaused (result ≡ Err IoFault.Failed) (K.faults out.old) (K.faults out.new)
        (K.never_fails out.old) (K.never_fails out.new) }
{
    write_piece(out, text.as_bytes())?;
    Ok(DONE)
}

/// Writes what the router of a name holds. Answers the status.
pub(crate) fn write_table<K: Sink>(
    alloc: Global,
    name: &Name,
    world: &World,
    out: &mut K,
) -> Result<u8, IoFault>
    ensures looked { Looked Unit (SeesTable (name_text name.now) world.now.parts) result (K.held out.old) (K.held out.new) }
    ensures statuses { IfOk result (λ status. (status ≡ 0) ⊎ (status ≡ 2)) }
    ensures caused { IsCaused (result ≡ Err IoFault.Failed) (K.faults out.old) (K.faults out.new)
        (K.never_fails out.old) (K.never_fails out.new) }
{
    let Some(member) = world.member(name) else {
        return refuse(alloc, UNKNOWN, out);
    };
    let Ok(text) = table_text(alloc, name, member) else {
        return Err(IoFault::NoMemory);
    };
    say(text.as_str(), out)
}

/// Writes whether the router of a name is settled and quiet, and if not, why. Answers the status.
pub(crate) fn write_why<K: Sink>(
    alloc: Global,
    name: &Name,
    world: &World,
    out: &mut K,
) -> Result<u8, IoFault>
    ensures looked { Looked Unit (SeesWhy (name_text name.now) world.now.parts) result (K.held out.old) (K.held out.new) }
    ensures statuses { IfOk result (λ status. (status ≡ 0) ⊎ (status ≡ 2)) }
    ensures caused { IsCaused (result ≡ Err IoFault.Failed) (K.faults out.old) (K.faults out.new)
        (K.never_fails out.old) (K.never_fails out.new) }
{
    if let Some(code) = world.unless_runs(name) {
        return refuse(alloc, code, out);
    }
    let Ok(text) = why_text(alloc, name, world) else {
        return Err(IoFault::NoMemory);
    };
    say(text.as_str(), out)
}

/// Writes whether the home of the router of a name is calm, and until when it lasts; and if not, what is missing. Answers
/// the status.
pub(crate) fn write_calm<K: Sink>(
    alloc: Global,
    name: &Name,
    world: &World,
    out: &mut K,
) -> Result<u8, IoFault>
    ensures looked { Looked Unit (SeesCalm (name_text name.now) world.now.parts) result (K.held out.old) (K.held out.new) }
    ensures statuses { IfOk result (λ status. (status ≡ 0) ⊎ (status ≡ 2)) }
    ensures caused { IsCaused (result ≡ Err IoFault.Failed) (K.faults out.old) (K.faults out.new)
        (K.never_fails out.old) (K.never_fails out.new) }
{
    let refused = world.unless_runs(name);
    if let Some(code) = refused {
        return refuse(alloc, code, out);
    }
    let Ok(text) = calm_text(alloc, name, world) else {
        return Err(IoFault::NoMemory);
    };
    say(text.as_str(), out)
}
