//! A look at the world of a play.

ghost use Rattle.std.specs.Prelude.{◌≡◌, ◌⊎◌, ℕ, List, Err, IfOk};
ghost use Rattle.hn_io.specs.Faults.{IsCaused};
ghost use Rattle.hn_world.specs.SeenWorld.{world_parts};
ghost use Rattle.hn_look.specs.Look.{Sees, SeesOf, EndsRefused, IsLook, MayStarve, Looked};

use crate::last_line::{LastLine, refusal_of};
use crate::log::write_log;
use crate::named::{write_calm, write_table, write_why};
use crate::status::{DONE, REFUSED};
use crate::words::Form;
use hn_io::{IoFault, Sink};
use hn_lab::Played;
use hn_streams::{pieces_append, write_piece};
use hn_world::World;
use std::alloc::Global;

/// Looks at a world in the way of a form. Answers the status.
fn see<K: Sink>(alloc: Global, form: &Form, world: &World, out: &mut K) -> Result<u8, IoFault>
    ensures looked { Looked (MayStarve form.now) (Sees form.now world.now.parts) result (K.held out.old) (K.held out.new) }
    ensures statuses { IfOk result (λ status. (status ≡ 0) ⊎ (status ≡ 2)) }
    ensures caused { IsCaused (result ≡ Err IoFault.Failed) (K.faults out.old) (K.faults out.new)
        (K.never_fails out.old) (K.never_fails out.new) }
{
    match form {
        Form::Log => {
            write_log(alloc, world, out)?;
            Ok(DONE)
        }
        Form::Table(name) => write_table(alloc, name, world, out),
        Form::Why(name) => write_why(alloc, name, world, out),
        Form::Calm(name) => write_calm(alloc, name, world, out),
    }
}

/// Looks at a world, if there is one.
fn see_any<K: Sink>(
    alloc: Global,
    form: &Form,
    world: &Option<World>,
    out: &mut K,
) -> Result<u8, IoFault>
    ensures looked { Looked (MayStarve form.now) (SeesOf (Sees form.now) (world_parts world.now)) result (K.held out.old) (K.held out.new) }
    ensures statuses { IfOk result (λ status. (status ≡ 0) ⊎ (status ≡ 2)) }
    ensures caused { IsCaused (result ≡ Err IoFault.Failed) (K.faults out.old) (K.faults out.new)
        (K.never_fails out.old) (K.never_fails out.new) }
{
    match world {
        Some(world) => see(alloc, form, world, out),
        None => Ok(DONE),
    }
}

/// Looks at the world of a play that came to an end, and then writes the last line of the transcript of a script that
/// was refused. Answers the status.
pub(crate) fn look<K: Sink>(
    alloc: Global,
    form: &Form,
    played: &Played,
    transcript: &LastLine,
    out: &mut K,
) -> Result<u8, IoFault>
    requires ended { (played.now.status ≡ 0) ⊎ (played.now.status ≡ 2) }
    requires refused { played.now.status ≡ 2 → (line : List ℕ) × EndsRefused transcript.now line }
    ensures looked { Looked (MayStarve form.now) (IsLook (Sees form.now) played.now.status (world_parts played.now.world) transcript.now) result (K.held out.old) (K.held out.new) }
    ensures statuses { IfOk result (λ status. (status ≡ 0) ⊎ (status ≡ 2)) }
    ensures caused { IsCaused (result ≡ Err IoFault.Failed) (K.faults out.old) (K.faults out.new)
        (K.never_fails out.old) (K.never_fails out.new) }
{
    pieces_append();
    let status = see_any(alloc, form, &played.world, out)?;
    if played.status != REFUSED {
        return Ok(status);
    }
    write_piece(out, refusal_of(transcript))?;
    Ok(REFUSED)
}
