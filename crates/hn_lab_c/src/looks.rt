//! What is seen of a home, as `hnlook` writes it.

ghost use Rattle.std.specs.Prelude.{◌≡◌, ◌≢◌, ◌≤◌, None, IfSome, IfNone, false, is_some};
ghost use Rattle.hn_audit.specs.Reached.{runs};
ghost use Rattle.hn_calm.specs.Text.{IsCalmText};
ghost use Rattle.hn_lab_c.specs.Looks.{HasNoRoomForText, IsTableOf, TellsNothing, WritesText};
ghost use Rattle.hn_look.specs.Log.{IsLog};
ghost use Rattle.hn_why.specs.Why.{IsWhy};
ghost use Rattle.hn_world.specs.Names.{member_named};

use crate::asked::{named, running};
use crate::handle::Handle;
use crate::status::{NO_MEMORY, REFUSED};
use crate::texts::give;
use hn_calm::calm_text;
use hn_io::MemSink;
use hn_look::write_log;
use hn_table::table_text;
use hn_why::why_text;
use hn_world::World;
use std::alloc::Global;

/// Whether the router of a name is settled and quiet, and if not, why.
fn why(alloc: Global, world: &World, name: &[u8], count: &mut usize, room: &mut [u8]) -> u8
    ensures why { result ≡ 0 → WritesText (IsWhy name.now world.now.parts) count.new room.old room.new }
    ensures refused { result ≡ 2 → TellsNothing (runs name.now world.now.parts) (IsWhy name.now world.now.parts) count.new room.old }
    ensures stopped { runs name.now world.now.parts ≡ false → (result ≡ 2) × (count.new ≡ 0) }
    ensures as_before { result ≢ 0 → room.new ≡ room.old }
    ensures status { result ≤ 2 }
{
    *count = 0;
    let Some(name) = running(world, name) else {
        return REFUSED;
    };
    let Ok(text) = why_text(alloc, &name, world) else {
        return NO_MEMORY;
    };
    give(text.as_bytes(), count, room)
}

/// Whether the home of the router of a name is calm, and until when it lasts; and if not, what is missing.
fn calm(alloc: Global, world: &World, name: &[u8], count: &mut usize, room: &mut [u8]) -> u8
    ensures calm { result ≡ 0 → WritesText (IsCalmText name.now world.now.parts) count.new room.old room.new }
    ensures refused { result ≡ 2 → TellsNothing (runs name.now world.now.parts) (IsCalmText name.now world.now.parts) count.new room.old }
    ensures stopped { runs name.now world.now.parts ≡ false → (result ≡ 2) × (count.new ≡ 0) }
    ensures as_before { result ≢ 0 → room.new ≡ room.old }
    ensures status { result ≤ 2 }
{
    *count = 0;
    let Some(name) = running(world, name) else {
        return REFUSED;
    };
    let Ok(text) = calm_text(alloc, &name, world) else {
        return NO_MEMORY;
    };
    give(text.as_bytes(), count, room)
}

/// What the router of a name holds.
fn table(alloc: Global, world: &World, name: &[u8], count: &mut usize, room: &mut [u8]) -> u8
    ensures table { result ≡ 0 → WritesText (IsTableOf name.now world.now.parts) count.new room.old room.new }
    ensures refused { result ≡ 2
        → TellsNothing (is_some (member_named name.now world.now.parts)) (IsTableOf name.now world.now.parts) count.new room.old }
    ensures unknown { member_named name.now world.now.parts ≡ None → (result ≡ 2) × (count.new ≡ 0) }
    ensures as_before { result ≢ 0 → room.new ≡ room.old }
    ensures status { result ≤ 2 }
{
    *count = 0;
    let Some(name) = named(world, name) else {
        return REFUSED;
    };
    let Some(member) = world.member(&name) else {
        return REFUSED;
    };
    let Ok(text) = table_text(alloc, &name, member) else {
        return NO_MEMORY;
    };
    give(text.as_bytes(), count, room)
}

/// What happened in a home, event by event.
fn log(alloc: Global, world: &World, count: &mut usize, room: &mut [u8]) -> u8
    ensures log { result ≡ 0 → WritesText (IsLog world.now.parts) count.new room.old room.new }
    ensures no_room { result ≡ 2 → HasNoRoomForText (IsLog world.now.parts) count.new room.old }
    ensures as_before { result ≢ 0 → room.new ≡ room.old }
    ensures status { result ≤ 2 }
{
    let mut text = MemSink::new(alloc, Vec::new(alloc));
    match write_log(alloc, world, &mut text) {
        Ok(()) => give(text.held(), count, room),
        Err(_) => NO_MEMORY,
    }
}

/// Whether the router of a name, which runs, is settled and quiet, and if not, why: how many bytes the text has, and these, where
/// there is room.
#[unsafe(no_mangle)]
pub extern "C" fn hn_lab_why(
    alloc: Global,
    lab: &mut Handle,
    name: &[u8],
    count: &mut usize,
    room: &mut [u8],
) -> u8
    ensures kept { lab.new.held ≡ lab.old.held }
    ensures why { result ≡ 0 → IfSome lab.old.held (λ play. WritesText (IsWhy name.now play.world) count.new room.old room.new) }
    ensures refused { result ≡ 2 → IfSome lab.old.held (λ play.
        TellsNothing (runs name.now play.world) (IsWhy name.now play.world) count.new room.old) }
    ensures stopped { IfSome lab.old.held (λ play. runs name.now play.world ≡ false → (result ≡ 2) × (count.new ≡ 0)) }
    ensures none { IfNone lab.old.held ((result ≡ 2) × (count.new ≡ 0)) }
    ensures as_before { result ≢ 0 → room.new ≡ room.old }
    ensures status { result ≤ 2 }
{
    let Some(play) = lab.take(alloc) else {
        *count = 0;
        return REFUSED;
    };
    let status = why(alloc, play.world(), name, count, room);
    *lab = Handle::of(play);
    status
}

/// Whether the home of the router of a name, which runs, is calm, and until when it lasts; and if not, what is missing: how many
/// bytes the text has, and these, where there is room.
#[unsafe(no_mangle)]
pub extern "C" fn hn_lab_calm(
    alloc: Global,
    lab: &mut Handle,
    name: &[u8],
    count: &mut usize,
    room: &mut [u8],
) -> u8
    ensures kept { lab.new.held ≡ lab.old.held }
    ensures calm { result ≡ 0 → IfSome lab.old.held (λ play.
        WritesText (IsCalmText name.now play.world) count.new room.old room.new) }
    ensures refused { result ≡ 2 → IfSome lab.old.held (λ play.
        TellsNothing (runs name.now play.world) (IsCalmText name.now play.world) count.new room.old) }
    ensures stopped { IfSome lab.old.held (λ play. runs name.now play.world ≡ false → (result ≡ 2) × (count.new ≡ 0)) }
    ensures none { IfNone lab.old.held ((result ≡ 2) × (count.new ≡ 0)) }
    ensures as_before { result ≢ 0 → room.new ≡ room.old }
    ensures status { result ≤ 2 }
{
    let Some(play) = lab.take(alloc) else {
        *count = 0;
        return REFUSED;
    };
    let status = calm(alloc, play.world(), name, count, room);
    *lab = Handle::of(play);
    status
}

/// What the router of a name holds, stopped or not: how many bytes the text has, and these, where there is room.
#[unsafe(no_mangle)]
pub extern "C" fn hn_lab_table(
    alloc: Global,
    lab: &mut Handle,
    name: &[u8],
    count: &mut usize,
    room: &mut [u8],
) -> u8
    ensures kept { lab.new.held ≡ lab.old.held }
    ensures table { result ≡ 0 → IfSome lab.old.held (λ play.
        WritesText (IsTableOf name.now play.world) count.new room.old room.new) }
    ensures refused { result ≡ 2 → IfSome lab.old.held (λ play.
        TellsNothing (is_some (member_named name.now play.world)) (IsTableOf name.now play.world) count.new room.old) }
    ensures unknown { IfSome lab.old.held (λ play. member_named name.now play.world ≡ None → (result ≡ 2) × (count.new ≡ 0)) }
    ensures none { IfNone lab.old.held ((result ≡ 2) × (count.new ≡ 0)) }
    ensures as_before { result ≢ 0 → room.new ≡ room.old }
    ensures status { result ≤ 2 }
{
    let Some(play) = lab.take(alloc) else {
        *count = 0;
        return REFUSED;
    };
    let status = table(alloc, play.world(), name, count, room);
    *lab = Handle::of(play);
    status
}

/// What happened, event by event: how many bytes the text has, and these, where there is room.
#[unsafe(no_mangle)]
pub extern "C" fn hn_lab_log(
    alloc: Global,
    lab: &mut Handle,
    count: &mut usize,
    room: &mut [u8],
) -> u8
    ensures kept { lab.new.held ≡ lab.old.held }
    ensures log { result ≡ 0 → IfSome lab.old.held (λ play. WritesText (IsLog play.world) count.new room.old room.new) }
    ensures no_room { result ≡ 2 → IfSome lab.old.held (λ play. HasNoRoomForText (IsLog play.world) count.new room.old) }
    ensures none { IfNone lab.old.held ((result ≡ 2) × (count.new ≡ 0)) }
    ensures as_before { result ≢ 0 → room.new ≡ room.old }
    ensures status { result ≤ 2 }
{
    let Some(play) = lab.take(alloc) else {
        *count = 0;
        return REFUSED;
    };
    let status = log(alloc, play.world(), count, room);
    *lab = Handle::of(play);
    status
}
