ghost use Rattle.std.specs.Prelude.{◌≡◌, ◌≢◌, ◌↔◌, ◌<◌, ◌≤◌, ◌⊎◌, None, IfSome, IfNone, IsNone, IsTrue, false, length};
ghost use Rattle.hn_router_c.specs.Calls.{has_link, ExceedsRoom, IsWritten, IsSent, IsUnsent, IsNoteAt, IsAssignedAt, IsNodeAt, IsUsedAt, UsesFewer, IsElectedFor, IsAdvertisementWritten, IsUnadvertised, Advertises, HasNoRoomFor, Advertised};
ghost use Rattle.hn_router_c.specs.Kinds.{letter_of};

use crate::happening::{DONE, NO_MEMORY, OUT_OF_RANGE};
use crate::kinds::{
    Assigned, Elected, Note, Sent, Used, assigned_of, elected_of, letter_of, note_of, sent_of,
    used_of,
};
use hn_base::{EpId, NodeId};
use hn_handle::Handle;
use hn_kept::Keeper;
use hn_router::Router;
use hn_rules::Outgoing;
use std::alloc::Global;

/// Writes bytes at the front of a room that has place for them, says whether it has, and counts them.
pub(crate) fn write(bytes: &[u8], count: &mut usize, room: &mut [u8]) -> bool
    ensures fits { IsTrue result ↔ (length bytes.now ≤ length room.old) }
    ensures written { IsTrue result → IsWritten bytes.now count.new room.old room.new }
    ensures no_room { result ≡ false → ExceedsRoom bytes.now count.new room.old }
    ensures as_before { result ≡ false → room.new ≡ room.old }
{
    *count = bytes.len();
    if room.len() < bytes.len() {
        return false;
    }
    room[..bytes.len()].copy_from_slice(bytes);
    true
}

/// The datagram at a place.
fn send(sends: &[Outgoing], place: usize, sent: &mut Sent, count: &mut usize, room: &mut [u8]) -> u8
    ensures sent { result ≡ 0 → IsSent sends.now place sent.new count.new room.old room.new }
    ensures unsent { result ≢ 0 → IsUnsent sends.now place sent.new count.new room.old }
    ensures absent { length sends.now ≤ place → sent.new ≡ sent.old }
    ensures as_before { result ≢ 0 → room.new ≡ room.old }
    ensures status { (result ≡ 0) ⊎ (result ≡ 2) }
{
    let Some(outgoing) = sends.get(place) else {
        return OUT_OF_RANGE;
    };
    *sent = sent_of(outgoing);
    if write(outgoing.bytes.as_slice(), count, room) {
        DONE
    } else {
        OUT_OF_RANGE
    }
}

/// What was noted at a place.
fn noted(notes: &[hn_rules::Note], place: usize, out: &mut Note) -> u8
    ensures noted { result ≡ 0 → IsNoteAt notes.now place out.new }
    ensures there { result ≡ 0 ↔ place < length notes.now }
    ensures as_before { result ≢ 0 → out.new ≡ out.old }
    ensures status { (result ≡ 0) ⊎ (result ≡ 2) }
{
    let Some(noted) = notes.get(place) else {
        return OUT_OF_RANGE;
    };
    *out = note_of(*noted);
    DONE
}

/// The assignment at a place.
fn assigned_at(all: &[hn_assign::Assigned], place: usize, out: &mut Assigned) -> u8
    ensures assigned { result ≡ 0 → IsAssignedAt all.now place out.new }
    ensures there { result ≡ 0 ↔ place < length all.now }
    ensures as_before { result ≢ 0 → out.new ≡ out.old }
    ensures status { (result ≡ 0) ⊎ (result ≡ 2) }
{
    let Some(assigned) = all.get(place) else {
        return OUT_OF_RANGE;
    };
    *out = assigned_of(assigned);
    DONE
}

/// The node at a place.
fn node_at(nodes: &[NodeId], place: usize, out: &mut u32) -> u8
    ensures node { result ≡ 0 → IsNodeAt nodes.now place out.new }
    ensures there { result ≡ 0 ↔ place < length nodes.now }
    ensures as_before { result ≢ 0 → out.new ≡ out.old }
    ensures status { (result ≡ 0) ⊎ (result ≡ 2) }
{
    let Some(node) = nodes.get(place) else {
        return OUT_OF_RANGE;
    };
    *out = node.0;
    DONE
}

/// The delegated prefix at a place of those that the router uses.
fn used_at(alloc: Global, router: &Router, place: usize, used: &mut Used) -> u8
    ensures used { result ≡ 0 → IsUsedAt router.now place used.new }
    ensures fewer { result ≡ 2 → UsesFewer router.now place }
    ensures status { result ≤ 2 }
    ensures as_before { result ≢ 0 → used.new ≡ used.old }
{
    let Ok(all) = router.used(alloc) else {
        return NO_MEMORY;
    };
    let Some(delegated) = all.as_slice().get(place) else {
        return OUT_OF_RANGE;
    };
    *used = used_of(delegated);
    DONE
}

/// Whether an endpoint has a link: it is attached, or it is 0 and the router has a private link.
fn has_link(router: &Router, at: EpId) -> bool
    ensures { result ≡ has_link router.now at }
{
    router.attached(at) || at.0 == 0 && router.private().is_some()
}

/// Who is elected for the service of a number on an endpoint.
fn elected_for(alloc: Global, router: &Router, at: EpId, number: u8, out: &mut Elected) -> u8
    ensures elected { result ≡ 0 → IsElectedFor router.now at number out.new }
    ensures refused { result ≡ 2 ↔ (letter_of number ≡ None) ⊎ (has_link router.now at ≡ false) }
    ensures status { result ≤ 2 }
    ensures as_before { result ≢ 0 → out.new ≡ out.old }
{
    let Some(letter) = letter_of(number) else {
        return OUT_OF_RANGE;
    };
    if !has_link(router, at) {
        return OUT_OF_RANGE;
    }
    let Ok(who) = router.elected(alloc, at, letter) else {
        return NO_MEMORY;
    };
    *out = elected_of(who);
    DONE
}

/// The bytes of the advertisement on an endpoint.
fn advert(alloc: Global, router: &Router, at: EpId, count: &mut usize, room: &mut [u8]) -> u8
    ensures advert { result ≡ 0 → IsAdvertisementWritten router.now at count.new room.old room.new }
    ensures no_room { result ≡ 2 → IsTrue (has_link router.now at) → IsUnadvertised router.now at count.new room.old }
    ensures no_link { has_link router.now at ≡ false → (result ≡ 2) × (count.new ≡ count.old) }
    ensures status { result ≤ 2 }
    ensures as_before { result ≢ 0 → room.new ≡ room.old }
{
    if !has_link(router, at) {
        return OUT_OF_RANGE;
    }
    let Ok(bytes) = router.advert(alloc, at) else {
        return NO_MEMORY;
    };
    if write(bytes.as_slice(), count, room) {
        DONE
    } else {
        OUT_OF_RANGE
    }
}

/// Where the datagram at a place of those of the last event goes, how many bytes it has, and these, where there is room.
#[unsafe(no_mangle)]
pub extern "C" fn hn_router_send(
    alloc: Global,
    router: &mut Handle,
    place: usize,
    sent: &mut Sent,
    count: &mut usize,
    room: &mut [u8],
) -> u8
    ensures kept { router.new.held ≡ router.old.held }
    ensures sent { result ≡ 0 → IfSome router.old.held (λ kept. IsSent kept.done.sends place sent.new count.new room.old room.new) }
    ensures unsent { result ≢ 0 → IfSome router.old.held (λ kept. IsUnsent kept.done.sends place sent.new count.new room.old) }
    ensures absent { IfSome router.old.held (λ kept. length kept.done.sends ≤ place → sent.new ≡ sent.old) }
    ensures none { IfNone router.old.held ((result ≡ 2) × (sent.new ≡ sent.old) × (count.new ≡ count.old)) }
    ensures as_before { result ≢ 0 → room.new ≡ room.old }
    ensures status { (result ≡ 0) ⊎ (result ≡ 2) }
{
    let Some(keeper) = router.take(alloc) else {
        return OUT_OF_RANGE;
    };
    let status = send(keeper.done().sends.as_slice(), place, sent, count, room);
    *router = Handle::of(keeper);
    status
}

/// What the last event noted at a place.
#[unsafe(no_mangle)]
pub extern "C" fn hn_router_note(
    alloc: Global,
    router: &mut Handle,
    place: usize,
    note: &mut Note,
) -> u8
    ensures kept { router.new.held ≡ router.old.held }
    ensures noted { result ≡ 0 → IfSome router.old.held (λ kept. IsNoteAt kept.done.notes place note.new) }
    ensures there { IfSome router.old.held (λ kept. result ≡ 0 ↔ place < length kept.done.notes) }
    ensures none { IfNone router.old.held (result ≡ 2) }
    ensures as_before { result ≢ 0 → note.new ≡ note.old }
    ensures status { (result ≡ 0) ⊎ (result ≡ 2) }
{
    let Some(keeper) = router.take(alloc) else {
        return OUT_OF_RANGE;
    };
    let status = noted(keeper.done().notes.as_slice(), place, note);
    *router = Handle::of(keeper);
    status
}

/// The assignment at a place.
#[unsafe(no_mangle)]
pub extern "C" fn hn_router_assigned(
    alloc: Global,
    router: &mut Handle,
    place: usize,
    assigned: &mut Assigned,
) -> u8
    ensures kept { router.new.held ≡ router.old.held }
    ensures assigned { result ≡ 0 → IfSome router.old.held (λ kept. IsAssignedAt kept.router.held.assigned place assigned.new) }
    ensures there { IfSome router.old.held (λ kept. result ≡ 0 ↔ place < length kept.router.held.assigned) }
    ensures none { IfNone router.old.held (result ≡ 2) }
    ensures as_before { result ≢ 0 → assigned.new ≡ assigned.old }
    ensures status { (result ≡ 0) ⊎ (result ≡ 2) }
{
    let Some(keeper) = router.take(alloc) else {
        return OUT_OF_RANGE;
    };
    let status = assigned_at(keeper.router().held().assigned.as_slice(), place, assigned);
    *router = Handle::of(keeper);
    status
}

/// The node at a place of those that were reachable at the last refresh.
#[unsafe(no_mangle)]
pub extern "C" fn hn_router_node(
    alloc: Global,
    router: &mut Handle,
    place: usize,
    id: &mut u32,
) -> u8
    ensures kept { router.new.held ≡ router.old.held }
    ensures node { result ≡ 0 → IfSome router.old.held (λ kept. IsNodeAt kept.router.reach place id.new) }
    ensures there { IfSome router.old.held (λ kept. result ≡ 0 ↔ place < length kept.router.reach) }
    ensures none { IfNone router.old.held (result ≡ 2) }
    ensures as_before { result ≢ 0 → id.new ≡ id.old }
    ensures status { (result ≡ 0) ⊎ (result ≡ 2) }
{
    let Some(keeper) = router.take(alloc) else {
        return OUT_OF_RANGE;
    };
    let status = node_at(keeper.router().reach(), place, id);
    *router = Handle::of(keeper);
    status
}

/// The delegated prefix at a place of those that the router uses.
#[unsafe(no_mangle)]
pub extern "C" fn hn_router_used(
    alloc: Global,
    router: &mut Handle,
    place: usize,
    used: &mut Used,
) -> u8
    ensures kept { router.new.held ≡ router.old.held }
    ensures used { result ≡ 0 → IfSome router.old.held (λ kept. IsUsedAt kept.router place used.new) }
    ensures fewer { result ≡ 2 → IfSome router.old.held (λ kept. UsesFewer kept.router place) }
    ensures none { IfNone router.old.held (result ≡ 2) }
    ensures status { result ≤ 2 }
    ensures as_before { result ≢ 0 → used.new ≡ used.old }
{
    let Some(keeper) = router.take(alloc) else {
        return OUT_OF_RANGE;
    };
    let status = used_at(alloc, keeper.router(), place, used);
    *router = Handle::of(keeper);
    status
}

/// Who is elected for a service on an endpoint that has a link: 0 to 3 are M, P, H and L.
#[unsafe(no_mangle)]
pub extern "C" fn hn_router_elected(
    alloc: Global,
    router: &mut Handle,
    endpoint: u32,
    service: u8,
    elected: &mut Elected,
) -> u8
    ensures kept { router.new.held ≡ router.old.held }
    ensures elected { result ≡ 0 → IfSome router.old.held (λ kept. IsElectedFor kept.router (record { 0 = endpoint }) service elected.new) }
    ensures refused { IfSome router.old.held (λ kept. result ≡ 2 ↔ (letter_of service ≡ None) ⊎ (has_link kept.router (record { 0 = endpoint }) ≡ false)) }
    ensures none { IfNone router.old.held (result ≡ 2) }
    ensures status { result ≤ 2 }
    ensures as_before { result ≢ 0 → elected.new ≡ elected.old }
{
    let Some(keeper) = router.take(alloc) else {
        return OUT_OF_RANGE;
    };
    let status = elected_for(alloc, keeper.router(), EpId(endpoint), service, elected);
    *router = Handle::of(keeper);
    status
}

/// How many bytes the Router Advertisement on an endpoint that has a link has, and these, where there is room.
#[unsafe(no_mangle)]
pub extern "C" fn hn_router_advert(
    alloc: Global,
    router: &mut Handle,
    endpoint: u32,
    count: &mut usize,
    room: &mut [u8],
) -> u8
    ensures kept { router.new.held ≡ router.old.held }
    ensures advert { result ≡ 0 → IfSome router.old.held (λ kept. IsAdvertisementWritten kept.router (record { 0 = endpoint }) count.new room.old room.new) }
    ensures no_room { result ≡ 2 → IfSome router.old.held (λ kept. IsTrue (has_link kept.router (record { 0 = endpoint })) → IsUnadvertised kept.router (record { 0 = endpoint }) count.new room.old) }
    ensures no_link { IfSome router.old.held (λ kept. has_link kept.router (record { 0 = endpoint }) ≡ false → (result ≡ 2) × (count.new ≡ count.old)) }
    ensures none { IfNone router.old.held ((result ≡ 2) × (count.new ≡ count.old)) }
    ensures status { result ≤ 2 }
    ensures as_before { result ≢ 0 → room.new ≡ room.old }
{
    let Some(keeper) = router.take(alloc) else {
        return OUT_OF_RANGE;
    };
    let status = advert(alloc, keeper.router(), EpId(endpoint), count, room);
    *router = Handle::of(keeper);
    status
}

/// The bytes of the advertisement that is to be sent on an endpoint now, where there is room; what was advertised is kept.
fn advertise(alloc: Global, keeper: &mut Keeper, at: EpId, count: &mut usize, room: &mut [u8]) -> u8
    ensures advertises { result ≡ 0 → Advertises at keeper.old keeper.new count.new room.old room.new }
    ensures no_room { result ≡ 2 → HasNoRoomFor keeper.old at count.new room.old }
    ensures short { result ≡ 0 → count.new ≤ 1232 }
    ensures enough { 1232 ≤ length room.old → result ≢ 2 }
    ensures as_before { result ≢ 0 → keeper.new ≡ keeper.old }
    ensures unwritten { result ≢ 0 → room.new ≡ room.old }
    ensures status { result ≤ 2 }
{
    let Ok((bytes, departures)) = keeper.next_advert(alloc, at, 0) else {
        return NO_MEMORY;
    };
    if !write(bytes.as_slice(), count, room) {
        return OUT_OF_RANGE;
    }
    keeper.tell(departures);
    DONE
}

/// How many bytes the Router Advertisement has that is to be sent on an endpoint now, with the prefixes that were advertised
/// there and are no longer, and these, where there is room.
#[unsafe(no_mangle)]
pub extern "C" fn hn_router_advertise(
    alloc: Global,
    router: &mut Handle,
    endpoint: u32,
    count: &mut usize,
    room: &mut [u8],
) -> u8
    ensures advertised { IfSome router.old.held (λ before. Advertised (record { 0 = endpoint }) before router.new.held count.new room.old room.new result) }
    ensures short { result ≡ 0 → count.new ≤ 1232 }
    ensures enough { 1232 ≤ length room.old → result ≡ 2 → IsNone router.old.held }
    ensures none { IfNone router.old.held ((router.new.held ≡ None) × (result ≡ 2) × (count.new ≡ count.old)) }
    ensures as_before { result ≢ 0 → room.new ≡ room.old }
    ensures status { result ≤ 2 }
{
    let Some(mut keeper) = router.take(alloc) else {
        return OUT_OF_RANGE;
    };
    let status = advertise(alloc, &mut keeper, EpId(endpoint), count, room);
    *router = Handle::of(keeper);
    status
}
