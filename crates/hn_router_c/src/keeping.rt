//! What is kept over a restart: which prefixes are preferred, and which ones were advertised.

ghost use Rattle.std.specs.Prelude.{◌≡◌, ◌≢◌, ◌↔◌, ◌<◌, ◌≤◌, ◌⊎◌, true, false, Some, None, IfSome, IfNone, length, slice_get};
ghost use Rattle.hn_base.specs.Prefix.{IsPrefix};
ghost use Rattle.hn_departed.specs.Departed.{with_earlier};
ghost use Rattle.hn_kept.specs.Preferred.{with_preferred};
ghost use Rattle.hn_router_c.specs.Calls.{MayBePreferred, HasRoomToPrefer, PrefersIn, IsDepartedAt, HasRoomToDepart, DepartsIn, prefix_of, preferred_of};
ghost use Rattle.hn_router_c.specs.Kinds.{departed_of};
ghost use Rattle.hn_base.specs.declared.ids.EpId.{EpId};
ghost use Rattle.hn_departed.specs.declared.departures.Told.{Told};

use crate::happening::{DONE, NO_MEMORY, OUT_OF_RANGE};
use crate::kinds::{Departed, departed_of};
use hn_base::{EpId, Moment};
use hn_departed::Told;
use hn_handle::Handle;
use hn_kept::{Keeper, Preferred};
use hn_prefix::Prefix;
use std::alloc::Global;

/// Shorter delegated prefixes have places that no word of 32 bits names.
const SHORTEST_DELEGATED: u8 = 32;

/// The links of a home get prefixes of 64 bits, and a private link shorter ones.
const LONGEST_PREFERRED: u8 = 64;

/// A prefix of C, if it is one.
fn prefix_of(bytes: &[u8; 16], length: u8) -> Option<Prefix>
    ensures some { IfSome result (λ p. (p ≡ prefix_of bytes.now length) × IsPrefix p) }
    ensures none { IfNone result (¬ (IsPrefix (prefix_of bytes.now length))) }
{
    Prefix::new(u128::from_be_bytes(*bytes), length).ok()
}

/// Whether a prefix may be preferred.
fn may_be_preferred(preferred: &Preferred) -> bool
    ensures may { result ≡ true → MayBePreferred preferred.now }
    ensures may_not { result ≡ false → ¬ (MayBePreferred preferred.now) }
{
    SHORTEST_DELEGATED <= preferred.delegated.len()
        && preferred.prefix.len() <= LONGEST_PREFERRED
        && preferred.delegated.contains(&preferred.prefix)
}

/// What is preferred for a pair of C, if it may be.
fn preferred_of(
    endpoint: u32,
    delegated: &[u8; 16],
    delegated_length: u8,
    prefix: &[u8; 16],
    length: u8,
) -> Option<Preferred>
    ensures some { IfSome result (λ f. (f ≡ preferred_of endpoint delegated.now delegated_length prefix.now length) × MayBePreferred f) }
    ensures none { IfNone result (¬ (MayBePreferred (preferred_of endpoint delegated.now delegated_length prefix.now length))) }
{
    let delegated = prefix_of(delegated, delegated_length)?;
    let prefix = prefix_of(prefix, length)?;
    let preferred = Preferred {
        endpoint: EpId(endpoint),
        delegated,
        prefix,
    };
    if may_be_preferred(&preferred) {
        Some(preferred)
    } else {
        None
    }
}

/// A prefix is preferred, where there is room.
fn prefer(alloc: Global, keeper: &mut Keeper, preferred: &Preferred) -> u8
    ensures preferred { result ≡ 0 → HasRoomToPrefer preferred.now keeper.old × (keeper.new ≡ record keeper.old { preferred = with_preferred preferred.now keeper.old.preferred }) }
    ensures refused { result ≡ 2 → ¬ (HasRoomToPrefer preferred.now keeper.old) }
    ensures as_before { result ≢ 0 → keeper.new ≡ keeper.old }
    ensures status { result ≤ 2 }
{
    match keeper.prefer(alloc, preferred) {
        Ok(true) => DONE,
        Ok(false) => OUT_OF_RANGE,
        Err(_) => NO_MEMORY,
    }
}

/// A prefix is preferred for the link of an endpoint, inside a delegated prefix.
#[unsafe(no_mangle)]
pub extern "C" fn hn_router_prefer(
    alloc: Global,
    router: &mut Handle,
    endpoint: u32,
    delegated: &[u8; 16],
    delegated_length: u8,
    prefix: &[u8; 16],
    length: u8,
) -> u8
    ensures preferred { IfSome router.old.held (λ before. PrefersIn (preferred_of endpoint delegated.now delegated_length prefix.now length) before router.new.held result) }
    ensures none { IfNone router.old.held ((router.new.held ≡ None) × (result ≡ 2)) }
    ensures status { result ≤ 2 }
{
    let Some(preferred) = preferred_of(endpoint, delegated, delegated_length, prefix, length) else {
        return OUT_OF_RANGE;
    };
    let Some(mut keeper) = router.take(alloc) else {
        return OUT_OF_RANGE;
    };
    let status = prefer(alloc, &mut keeper, &preferred);
    *router = Handle::of(keeper);
    status
}

/// How many prefixes were advertised.
#[unsafe(no_mangle)]
pub extern "C" fn hn_router_departures(alloc: Global, router: &mut Handle) -> usize
    ensures kept { router.new.held ≡ router.old.held }
    ensures value { IfSome router.old.held (λ kept. result ≡ length kept.told) }
    ensures none { IfNone router.old.held (result ≡ 0) }
{
    let Some(keeper) = router.take(alloc) else {
        return 0;
    };
    let value = keeper.departures().len();
    *router = Handle::of(keeper);
    value
}

/// The prefix at a place of those that were advertised.
fn departed_at(now: Moment, all: &[(EpId, Told)], place: usize, out: &mut Departed) -> u8
    ensures departed { result ≡ 0 → (told : EpId × Told) × (slice_get all.now place ≡ Some told) × (out.new ≡ departed_of now told) }
    ensures there { result ≡ 0 ↔ place < length all.now }
    ensures as_before { result ≢ 0 → out.new ≡ out.old }
    ensures status { (result ≡ 0) ⊎ (result ≡ 2) }
{
    let Some(told) = all.get(place) else {
        return OUT_OF_RANGE;
    };
    *out = departed_of(now, told);
    DONE
}

/// The prefix at a place of those that were advertised, from 0 on.
#[unsafe(no_mangle)]
pub extern "C" fn hn_router_departed(
    alloc: Global,
    router: &mut Handle,
    place: usize,
    departed: &mut Departed,
) -> u8
    ensures kept { router.new.held ≡ router.old.held }
    ensures departed { result ≡ 0 → IfSome router.old.held (λ kept. IsDepartedAt kept place departed.new) }
    ensures there { IfSome router.old.held (λ kept. result ≡ 0 ↔ place < length kept.told) }
    ensures none { IfNone router.old.held (result ≡ 2) }
    ensures as_before { result ≢ 0 → departed.new ≡ departed.old }
    ensures status { (result ≡ 0) ⊎ (result ≡ 2) }
{
    let Some(keeper) = router.take(alloc) else {
        return OUT_OF_RANGE;
    };
    let now = keeper.router().moment();
    let status = departed_at(now, keeper.departures(), place, departed);
    *router = Handle::of(keeper);
    status
}

/// A prefix was advertised on an endpoint in an earlier life, where there is room.
fn depart(alloc: Global, keeper: &mut Keeper, at: EpId, prefix: &Prefix, valid: u32) -> u8
    ensures departed { result ≡ 0 → HasRoomToDepart at prefix.now keeper.old × (keeper.new ≡ record keeper.old { told = with_earlier keeper.old.router.moment at prefix.now valid keeper.old.told }) }
    ensures refused { result ≡ 2 → ¬ (HasRoomToDepart at prefix.now keeper.old) }
    ensures as_before { result ≢ 0 → keeper.new ≡ keeper.old }
    ensures status { result ≤ 2 }
{
    match keeper.depart(alloc, at, prefix, valid) {
        Ok(true) => DONE,
        Ok(false) => OUT_OF_RANGE,
        Err(_) => NO_MEMORY,
    }
}

/// A prefix was advertised on an endpoint in an earlier life, and is valid for so many seconds more.
#[unsafe(no_mangle)]
pub extern "C" fn hn_router_depart(
    alloc: Global,
    router: &mut Handle,
    endpoint: u32,
    prefix: &[u8; 16],
    length: u8,
    valid: u32,
) -> u8
    ensures departed { IfSome router.old.held (λ before. DepartsIn (record { 0 = endpoint }) (prefix_of prefix.now length) valid before router.new.held result) }
    ensures none { IfNone router.old.held ((router.new.held ≡ None) × (result ≡ 2)) }
    ensures status { result ≤ 2 }
{
    let Some(prefix) = prefix_of(prefix, length) else {
        return OUT_OF_RANGE;
    };
    let Some(mut keeper) = router.take(alloc) else {
        return OUT_OF_RANGE;
    };
    let status = depart(alloc, &mut keeper, EpId(endpoint), &prefix, valid);
    *router = Handle::of(keeper);
    status
}
