//! An advertisement with options of the caller's behind those that the router has in it.

ghost use Rattle.std.specs.Prelude.{◌≡◌, ◌≢◌, ◌↔◌, ◌<◌, ◌≤◌, ◌++◌, ◌⊎◌, None, IfSome, IfNone, IfOk, IsNone, IsTrue, false, length};
ghost use Rattle.hn_advert.specs.Reading.{HasOptions};
ghost use Rattle.hn_router_c.specs.Calls.{IsWritten, AdvertisesWith, HasNoRoomWith, IsRefusedWith, AdvertisedWith};

use crate::happening::{DONE, NO_MEMORY, OUT_OF_RANGE};
use crate::reports::write;
use hn_advert::{ReadFault, read};
use hn_base::{EpId, NoMemory};
use hn_handle::Handle;
use hn_kept::Keeper;
use std::alloc::Global;

/// How many bytes an advertisement has at most: 1,280 (RFC 8200, section 5), less 40 of the IPv6 header, and 8 for an
/// extension header.
const MOST_BYTES: usize = 1232;

/// The fields before the options of an advertisement (RFC 4861, section 4.2).
const HEADER: [u8; 16] = [134, 0, 0, 0, 0, 0, 0, 0, 0, 0, 0, 0, 0, 0, 0, 0];

/// The bytes one after the other.
fn joined(alloc: Global, first: &[u8], second: &[u8]) -> Result<Vec<u8>, NoMemory>
    ensures { IfOk result (λ both. both.items ≡ first.now ++ second.now) }
{
    let mut both = Vec::from_slice(alloc, first)?;
    both.extend_from_slice(second)?;
    Ok(both)
}

/// Whether bytes are whole options, one after the other (RFC 4861, section 4.6).
fn are_options(alloc: Global, bytes: &[u8]) -> Result<bool, NoMemory>
    ensures { IfOk result (λ are. IsTrue are ↔ HasOptions bytes.now) }
{
    let whole = joined(alloc, &HEADER, bytes)?;
    match read(alloc, whole.as_slice()) {
        Ok(_) => Ok(true),
        Err(ReadFault::Ra(_)) => Ok(false),
        Err(ReadFault::NoMemory) => Err(NoMemory),
    }
}

/// Writes as `write` does, but no more than 1,232 bytes.
fn write_short(bytes: &[u8], count: &mut usize, room: &mut [u8]) -> bool
    ensures fits { IsTrue result ↔ (length bytes.now ≤ 1232) × (length bytes.now ≤ length room.old) }
    ensures count { count.new ≡ length bytes.now }
    ensures written { IsTrue result → IsWritten bytes.now count.new room.old room.new }
    ensures longer { result ≡ false → (1232 < count.new) ⊎ (length room.old < count.new) }
    ensures as_before { result ≡ false → room.new ≡ room.old }
{
    if MOST_BYTES < bytes.len() {
        *count = bytes.len();
        return false;
    }
    write(bytes, count, room)
}

/// The bytes of the advertisement that is to be sent on an endpoint now, and after them whole options, where there is room; what
/// was advertised is kept.
fn advertise_options(
    alloc: Global,
    keeper: &mut Keeper,
    at: EpId,
    options: &[u8],
    count: &mut usize,
    room: &mut [u8],
) -> u8
    requires { HasOptions options.now }
    ensures advertises { result ≡ 0 → AdvertisesWith at options.now keeper.old keeper.new count.new room.old room.new }
    ensures no_room { result ≡ 2 → HasNoRoomWith at options.now keeper.old count.new room.old }
    ensures enough { 1232 ≤ length room.old → length options.now ≤ 192 → result ≢ 2 }
    ensures as_before { result ≢ 0 → keeper.new ≡ keeper.old }
    ensures unwritten { result ≢ 0 → room.new ≡ room.old }
    ensures status { result ≤ 2 }
{
    let Ok((bytes, departures)) = keeper.next_advert(alloc, at, options.len()) else {
        return NO_MEMORY;
    };
    let Ok(whole) = joined(alloc, bytes.as_slice(), options) else {
        return NO_MEMORY;
    };
    if !write_short(whole.as_slice(), count, room) {
        return OUT_OF_RANGE;
    }
    keeper.tell(departures);
    DONE
}

/// The same, where the caller's bytes are whole options.
fn advertise_with(
    alloc: Global,
    keeper: &mut Keeper,
    at: EpId,
    options: &[u8],
    count: &mut usize,
    room: &mut [u8],
) -> u8
    ensures advertises { result ≡ 0 → AdvertisesWith at options.now keeper.old keeper.new count.new room.old room.new }
    ensures refused { result ≡ 2 → IsRefusedWith at options.now keeper.old count.old count.new room.old }
    ensures enough { 1232 ≤ length room.old → length options.now ≤ 192 → HasOptions options.now → result ≢ 2 }
    ensures as_before { result ≢ 0 → keeper.new ≡ keeper.old }
    ensures unwritten { result ≢ 0 → room.new ≡ room.old }
    ensures status { result ≤ 2 }
{
    let Ok(are_options) = are_options(alloc, options) else {
        return NO_MEMORY;
    };
    if !are_options {
        return OUT_OF_RANGE;
    }
    advertise_options(alloc, keeper, at, options, count, room)
}

/// As `hn_router_advertise`, with options of the caller's behind those of the router.
#[unsafe(no_mangle)]
pub extern "C" fn hn_router_advertise_with(
    alloc: Global,
    router: &mut Handle,
    endpoint: u32,
    options: &[u8],
    count: &mut usize,
    room: &mut [u8],
) -> u8
    ensures advertised { IfSome router.old.held (λ before. AdvertisedWith (record { 0 = endpoint }) options.now before router.new.held count.old count.new room.old room.new result) }
    ensures enough { 1232 ≤ length room.old → length options.now ≤ 192 → HasOptions options.now → result ≡ 2 → IsNone router.old.held }
    ensures none { IfNone router.old.held ((router.new.held ≡ None) × (result ≡ 2) × (count.new ≡ count.old)) }
    ensures as_before { result ≢ 0 → room.new ≡ room.old }
    ensures status { result ≤ 2 }
{
    let Some(mut keeper) = router.take(alloc) else {
        return OUT_OF_RANGE;
    };
    let status = advertise_with(alloc, &mut keeper, EpId(endpoint), options, count, room);
    *router = Handle::of(keeper);
    status
}
