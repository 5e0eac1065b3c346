//! What a router chooses for itself: a ULA prefix of its own making, and its addresses.

ghost use Rattle.std.specs.Prelude.{◌≡◌, ◌≢◌, ◌↔◌, ◌<◌, ◌≤◌, ◌⊎◌, None, IfSome, IfNone, IsTrue, length};
ghost use Rattle.hn_kept.specs.Chosen.{MakesUla, ChoosesAddresses};
ghost use Rattle.hn_router_c.specs.Calls.{is_outside, Became, IsOwnAddressAt};

use crate::happening::{DONE, NO_MEMORY, OUT_OF_RANGE, is_outside};
use crate::kinds::{Address, address_out};
use hn_base::{EpId, Moment};
use hn_handle::Handle;
use hn_kept::Keeper;
use std::alloc::Global;

/// A router decides on a ULA prefix of its own making at a moment, which is to be none before its own and at most 2^48.
fn choose_ula(alloc: Global, keeper: &mut Keeper, now: Moment) -> u8
    ensures chosen { result ≡ 0 → MakesUla now keeper.old keeper.new }
    ensures as_before { result ≢ 0 → keeper.new ≡ keeper.old }
    ensures ranged { result ≡ 2 ↔ IsTrue (is_outside now keeper.old.router) }
    ensures status { result ≤ 2 }
{
    if is_outside(keeper.router(), now) {
        return OUT_OF_RANGE;
    }
    match keeper.ula(alloc, now) {
        Ok(()) => DONE,
        Err(_) => NO_MEMORY,
    }
}

/// A router decides whether to announce a ULA prefix of its own making, to withdraw one, or to keep what there is.
#[unsafe(no_mangle)]
pub extern "C" fn hn_router_choose_ula(alloc: Global, router: &mut Handle, now: u64) -> u8
    ensures chosen { IfSome router.old.held (λ before. Became (MakesUla now) before router.new.held result) }
    ensures ranged { IfSome router.old.held (λ before. result ≡ 2 ↔ IsTrue (is_outside now before.router)) }
    ensures none { IfNone router.old.held ((router.new.held ≡ None) × (result ≡ 2)) }
    ensures status { result ≤ 2 }
{
    let Some(mut keeper) = router.take(alloc) else {
        return OUT_OF_RANGE;
    };
    let status = choose_ula(alloc, &mut keeper, now);
    *router = Handle::of(keeper);
    status
}

/// A router chooses its addresses at a moment, which is to be none before its own and at most 2^48.
fn choose_addresses(alloc: Global, keeper: &mut Keeper, now: Moment) -> u8
    ensures chosen { result ≡ 0 → ChoosesAddresses now keeper.old keeper.new }
    ensures as_before { result ≢ 0 → keeper.new ≡ keeper.old }
    ensures ranged { result ≡ 2 ↔ IsTrue (is_outside now keeper.old.router) }
    ensures status { result ≤ 2 }
{
    if is_outside(keeper.router(), now) {
        return OUT_OF_RANGE;
    }
    match keeper.address(alloc, now) {
        Ok(()) => DONE,
        Err(_) => NO_MEMORY,
    }
}

/// A router chooses an address in each applied prefix, and has these.
#[unsafe(no_mangle)]
pub extern "C" fn hn_router_choose_addresses(alloc: Global, router: &mut Handle, now: u64) -> u8
    ensures chosen { IfSome router.old.held (λ before. Became (ChoosesAddresses now) before router.new.held result) }
    ensures ranged { IfSome router.old.held (λ before. result ≡ 2 ↔ IsTrue (is_outside now before.router)) }
    ensures none { IfNone router.old.held ((router.new.held ≡ None) × (result ≡ 2)) }
    ensures status { result ≤ 2 }
{
    let Some(mut keeper) = router.take(alloc) else {
        return OUT_OF_RANGE;
    };
    let status = choose_addresses(alloc, &mut keeper, now);
    *router = Handle::of(keeper);
    status
}

/// How many own addresses there are.
#[unsafe(no_mangle)]
pub extern "C" fn hn_router_own_addresses(alloc: Global, router: &mut Handle) -> usize
    ensures kept { router.new.held ≡ router.old.held }
    ensures value { IfSome router.old.held (λ kept. result ≡ length kept.router.addresses) }
    ensures none { IfNone router.old.held (result ≡ 0) }
{
    let Some(keeper) = router.take(alloc) else {
        return 0;
    };
    let value = keeper.router().addresses().len();
    *router = Handle::of(keeper);
    value
}

/// The own address at a place.
fn own_address_at(all: &[(EpId, u128)], place: usize, out: &mut Address) -> u8
    ensures address { result ≡ 0 → IsOwnAddressAt all.now place out.new }
    ensures there { result ≡ 0 ↔ place < length all.now }
    ensures as_before { result ≢ 0 → out.new ≡ out.old }
    ensures status { (result ≡ 0) ⊎ (result ≡ 2) }
{
    let Some(own) = all.get(place) else {
        return OUT_OF_RANGE;
    };
    *out = address_out(own);
    DONE
}

/// The own address at a place, with its endpoint.
#[unsafe(no_mangle)]
pub extern "C" fn hn_router_own_address(
    alloc: Global,
    router: &mut Handle,
    place: usize,
    address: &mut Address,
) -> u8
    ensures kept { router.new.held ≡ router.old.held }
    ensures address { result ≡ 0 → IfSome router.old.held (λ kept. IsOwnAddressAt kept.router.addresses place address.new) }
    ensures there { IfSome router.old.held (λ kept. result ≡ 0 ↔ place < length kept.router.addresses) }
    ensures none { IfNone router.old.held (result ≡ 2) }
    ensures as_before { result ≢ 0 → address.new ≡ address.old }
    ensures status { (result ≡ 0) ⊎ (result ≡ 2) }
{
    let Some(keeper) = router.take(alloc) else {
        return OUT_OF_RANGE;
    };
    let status = own_address_at(keeper.router().addresses(), place, address);
    *router = Handle::of(keeper);
    status
}
