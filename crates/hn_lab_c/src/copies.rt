//! The copies of datagrams.

ghost use Rattle.std.specs.Prelude.{◌≡◌, ◌≢◌, ◌⊎◌, None, Some, IfSome, IfNone};
ghost use Rattle.hn_slot.specs.Room.{FillsRoom, OverflowsRoom};
ghost use Rattle.hn_lab_c.specs.Kinds.{copy_out, sender_name};
ghost use Rattle.hn_lab_c.specs.Looks.{IsCopyOut};
ghost use Rattle.hn_world.specs.Refusal.{copy_at};

use crate::handle::Handle;
use crate::kinds::{MailCopy, as_bit, sender_endpoint};
use crate::status::REFUSED;
use crate::texts::give;
use hn_base::Addr;
use hn_look::sender_place;
use hn_world::{CopyInfo, World};
use std::alloc::Global;

/// The name of the router that sends from an address, with zeros after it; only zeros where there is none.
fn sender_name(world: &World, from: Addr) -> [u8; 16]
    ensures { result ≡ sender_name world.now.parts from }
{
    match world.router_at(sender_place(from)) {
        Some(name) => name.bytes,
        None => [0; 16],
    }
}

/// A copy as C sees it.
fn copy_out(world: &World, info: &CopyInfo) -> MailCopy
    ensures { result ≡ copy_out world.now.parts info.now }
{
    MailCopy {
        sender: sender_name(world, info.from),
        receiver: info.to.bytes,
        sender_endpoint: sender_endpoint(info.from),
        receiver_endpoint: info.endpoint.0,
        unicast: as_bit(!info.multicast),
        waiting: as_bit(info.waiting),
    }
}

/// The copy of a number, and its bytes, where there is room.
fn tell(world: &World, number: u64, out: &mut MailCopy, count: &mut usize, room: &mut [u8]) -> u8
    ensures copy { result ≡ 0 → IsCopyOut world.now.parts number (λ bytes. FillsRoom bytes count.new room.old room.new) out.new }
    ensures no_room { result ≡ 2 → copy_at world.now.parts number ≢ None
        → IsCopyOut world.now.parts number (λ bytes. OverflowsRoom bytes count.new room.old) out.new }
    ensures absent { copy_at world.now.parts number ≡ None → (result ≡ 2) × (out.new ≡ out.old) × (count.new ≡ 0) }
    ensures as_before { result ≢ 0 → room.new ≡ room.old }
    ensures status { (result ≡ 0) ⊎ (result ≡ 2) }
{
    *count = 0;
    let (Some(info), Some(bytes)) = (world.copy_info(number), world.copy_bytes(number)) else {
        return REFUSED;
    };
    *out = copy_out(world, &info);
    give(bytes, count, room)
}

/// The copy of a number: from where it is, where it goes, how many bytes it has, and these, where there is room.
#[unsafe(no_mangle)]
pub extern "C" fn hn_lab_copy(
    alloc: Global,
    lab: &mut Handle,
    number: u64,
    copy: &mut MailCopy,
    count: &mut usize,
    room: &mut [u8],
) -> u8
    ensures kept { lab.new.held ≡ lab.old.held }
    ensures copy { result ≡ 0 → IfSome lab.old.held (λ play.
        IsCopyOut play.world number (λ bytes. FillsRoom bytes count.new room.old room.new) copy.new) }
    ensures no_room { result ≡ 2 → IfSome lab.old.held (λ play. copy_at play.world number ≢ None
        → IsCopyOut play.world number (λ bytes. OverflowsRoom bytes count.new room.old) copy.new) }
    ensures absent { IfSome lab.old.held (λ play. copy_at play.world number ≡ None
        → (result ≡ 2) × (copy.new ≡ copy.old) × (count.new ≡ 0)) }
    ensures none { IfNone lab.old.held ((result ≡ 2) × (copy.new ≡ copy.old) × (count.new ≡ 0)) }
    ensures as_before { result ≢ 0 → room.new ≡ room.old }
    ensures status { (result ≡ 0) ⊎ (result ≡ 2) }
{
    let Some(play) = lab.take(alloc) else {
        *count = 0;
        return REFUSED;
    };
    let status = tell(play.world(), number, copy, count, room);
    *lab = Handle::of(play);
    status
}
