ghost use Rattle.std.specs.Prelude.{◌≡◌, ◌≢◌, ◌↔◌, ◌≤◌, None, IfSome, IfNone, IsTrue, IfOk, map};
ghost use Rattle.std.specs.Int.{w128, from_be_bytes};
ghost use Rattle.hn_router.specs.Act.{Arrive, Tick, Attach, Detach, External, Withdraw, SetCaps, Private, Addresses, Restart};
ghost use Rattle.hn_router_c.specs.Calls.{Acted, is_outside};
ghost use Rattle.hn_router_c.specs.Kinds.{AreCapsInRange, own_address, private_length};
ghost use Rattle.hn_base.specs.Caps.{plain_caps};
ghost use Rattle.hn_base.specs.Prefix.{IsPrefix};
ghost use Rattle.hn_base.specs.declared.caps.Caps.{Caps};

use crate::happening::{NO_MEMORY, OUT_OF_RANGE, happens, is_outside_of};
use crate::kinds::{Address, own_address};
use hn_base::{Addr, Caps, EpId, LinkLength, NoMemory};
use hn_handle::Handle;
use hn_prefix::Prefix;
use hn_router::Event;
use std::alloc::Global;

// No place. The checker has to see the type of an endpoint in the signature of a call.
fn no_place() -> EpId {
    EpId(0)
}

/// A datagram arrives at an endpoint, with its source and its bytes.
#[unsafe(no_mangle)]
pub extern "C" fn hn_router_arrive(
    alloc: Global,
    router: &mut Handle,
    now: u64,
    endpoint: u32,
    multicast: bool,
    source: &[u8; 16],
    port: u16,
    bytes: &[u8],
) -> u8
    ensures acted { IfSome router.old.held (λ before. Acted now (Arrive (record { endpoint = record { 0 = endpoint }; from = record { ip = from_be_bytes w128 source.now; port = port }; multicast = multicast }) bytes.now) before router.new.held result) }
    ensures ranged { IfSome router.old.held (λ before. result ≡ 2 ↔ IsTrue (is_outside now before.router)) }
    ensures none { IfNone router.old.held ((router.new.held ≡ None) × (result ≡ 2)) }
    ensures status { result ≤ 2 }
{
    let event = Event::Arrive {
        endpoint: EpId(endpoint),
        from: Addr {
            ip: u128::from_be_bytes(*source),
            port,
        },
        multicast,
        bytes,
    };
    happens(alloc, router, &event, now)
}

/// Time has passed.
#[unsafe(no_mangle)]
pub extern "C" fn hn_router_tick(alloc: Global, router: &mut Handle, now: u64) -> u8
    ensures acted { IfSome router.old.held (λ before. Acted now Tick before router.new.held result) }
    ensures ranged { IfSome router.old.held (λ before. result ≡ 2 ↔ IsTrue (is_outside now before.router)) }
    ensures none { IfNone router.old.held ((router.new.held ≡ None) × (result ≡ 2)) }
    ensures status { result ≤ 2 }
{
    let _place = no_place();
    happens(alloc, router, &Event::Tick, now)
}

/// An endpoint is attached to a link.
#[unsafe(no_mangle)]
pub extern "C" fn hn_router_attach(
    alloc: Global,
    router: &mut Handle,
    now: u64,
    endpoint: u32,
) -> u8
    ensures acted { IfSome router.old.held (λ before. Acted now (Attach (record { 0 = endpoint })) before router.new.held result) }
    ensures ranged { IfSome router.old.held (λ before. result ≡ 2 ↔ IsTrue (is_outside now before.router)) }
    ensures none { IfNone router.old.held ((router.new.held ≡ None) × (result ≡ 2)) }
    ensures status { result ≤ 2 }
{
    let event = Event::Attach {
        endpoint: EpId(endpoint),
    };
    happens(alloc, router, &event, now)
}

/// An endpoint is detached from its link.
#[unsafe(no_mangle)]
pub extern "C" fn hn_router_detach(
    alloc: Global,
    router: &mut Handle,
    now: u64,
    endpoint: u32,
) -> u8
    ensures acted { IfSome router.old.held (λ before. Acted now (Detach (record { 0 = endpoint })) before router.new.held result) }
    ensures ranged { IfSome router.old.held (λ before. result ≡ 2 ↔ IsTrue (is_outside now before.router)) }
    ensures none { IfNone router.old.held ((router.new.held ≡ None) × (result ≡ 2)) }
    ensures status { result ≤ 2 }
{
    let event = Event::Detach {
        endpoint: EpId(endpoint),
    };
    happens(alloc, router, &event, now)
}

/// A delegated prefix is added, or replaces the same one, with its lifetimes in seconds, of which the preferred one is no
/// longer than the valid one.
#[unsafe(no_mangle)]
pub extern "C" fn hn_router_external(
    alloc: Global,
    router: &mut Handle,
    now: u64,
    prefix: &[u8; 16],
    length: u8,
    valid: u32,
    preferred: u32,
) -> u8
    ensures acted { IfSome router.old.held (λ before. Acted now (External (record { bits = from_be_bytes w128 prefix.now; len = length }) valid preferred) before router.new.held result) }
    ensures ranged { IsPrefix (record { bits = from_be_bytes w128 prefix.now; len = length }) → preferred ≤ valid → IfSome router.old.held (λ before. result ≡ 2 ↔ IsTrue (is_outside now before.router)) }
    ensures values { result ≢ 2 → IsPrefix (record { bits = from_be_bytes w128 prefix.now; len = length }) × (preferred ≤ valid) }
    ensures none { IfNone router.old.held ((router.new.held ≡ None) × (result ≡ 2)) }
    ensures status { result ≤ 2 }
{
    let _place = no_place();
    if valid < preferred {
        return OUT_OF_RANGE;
    }
    let Ok(prefix) = Prefix::new(u128::from_be_bytes(*prefix), length) else {
        return OUT_OF_RANGE;
    };
    let event = Event::External {
        prefix,
        valid,
        preferred,
    };
    happens(alloc, router, &event, now)
}

/// A delegated prefix is withdrawn.
#[unsafe(no_mangle)]
pub extern "C" fn hn_router_withdraw(
    alloc: Global,
    router: &mut Handle,
    now: u64,
    prefix: &[u8; 16],
    length: u8,
) -> u8
    ensures acted { IfSome router.old.held (λ before. Acted now (Withdraw (record { bits = from_be_bytes w128 prefix.now; len = length })) before router.new.held result) }
    ensures ranged { IsPrefix (record { bits = from_be_bytes w128 prefix.now; len = length }) → IfSome router.old.held (λ before. result ≡ 2 ↔ IsTrue (is_outside now before.router)) }
    ensures values { result ≢ 2 → IsPrefix (record { bits = from_be_bytes w128 prefix.now; len = length }) }
    ensures none { IfNone router.old.held ((router.new.held ≡ None) × (result ≡ 2)) }
    ensures status { result ≤ 2 }
{
    let _place = no_place();
    let Ok(prefix) = Prefix::new(u128::from_be_bytes(*prefix), length) else {
        return OUT_OF_RANGE;
    };
    happens(alloc, router, &Event::Withdraw { prefix }, now)
}

/// The router gets these capabilities, each 0 to 15.
#[unsafe(no_mangle)]
pub extern "C" fn hn_router_caps(
    alloc: Global,
    router: &mut Handle,
    now: u64,
    m: u8,
    p: u8,
    h: u8,
    l: u8,
) -> u8
    ensures acted { result ≡ 0 → (caps : Caps) × (plain_caps caps ≡ record { m = m; p = p; h = h; l = l }) × IfSome router.old.held (λ before. Acted now (SetCaps caps) before router.new.held result) }
    ensures as_before { result ≢ 0 → router.new.held ≡ router.old.held }
    ensures ranged { AreCapsInRange m p h l → IfSome router.old.held (λ before. result ≡ 2 ↔ IsTrue (is_outside now before.router)) }
    ensures values { result ≢ 2 → AreCapsInRange m p h l }
    ensures none { IfNone router.old.held ((router.new.held ≡ None) × (result ≡ 2)) }
    ensures status { result ≤ 2 }
{
    let _place = no_place();
    if 15 < m || 15 < p || 15 < h || 15 < l {
        return OUT_OF_RANGE;
    }
    let caps = Caps { m, p, h, l };
    happens(alloc, router, &Event::Caps { caps }, now)
}

/// The length of the prefixes of a private link. With 0 there is none.
fn private_length(length: u8) -> Option<LinkLength>
    requires { length ≤ 64 }
    ensures { result ≡ private_length length }
{
    if length == 0 {
        None
    } else {
        Some(LinkLength::new(length))
    }
}

/// The router gets a private link, of which the prefixes have this length, 1 to 64, or has none, where that is 0.
#[unsafe(no_mangle)]
pub extern "C" fn hn_router_private(alloc: Global, router: &mut Handle, now: u64, length: u8) -> u8
    ensures acted { IfSome router.old.held (λ before. Acted now (Private (private_length length)) before router.new.held result) }
    ensures ranged { length ≤ 64 → IfSome router.old.held (λ before. result ≡ 2 ↔ IsTrue (is_outside now before.router)) }
    ensures values { result ≢ 2 → length ≤ 64 }
    ensures none { IfNone router.old.held ((router.new.held ≡ None) × (result ≡ 2)) }
    ensures status { result ≤ 2 }
{
    let _place = no_place();
    if 64 < length {
        return OUT_OF_RANGE;
    }
    let length = private_length(length);
    happens(alloc, router, &Event::Private { length }, now)
}

/// Addresses as the router has them.
fn own_addresses(alloc: Global, list: &[Address]) -> Result<Vec<(EpId, u128)>, NoMemory>
    ensures { IfOk result (λ addresses. addresses.items ≡ map own_address list.now) }
{
    Ok(list.iter().map(own_address).collect(alloc)?)
}

/// The router gets these addresses, each of an endpoint.
#[unsafe(no_mangle)]
pub extern "C" fn hn_router_addresses(
    alloc: Global,
    router: &mut Handle,
    now: u64,
    list: &[Address],
) -> u8
    ensures acted { IfSome router.old.held (λ before. Acted now (Addresses (map own_address list.now)) before router.new.held result) }
    ensures ranged { IfSome router.old.held (λ before. result ≡ 2 ↔ IsTrue (is_outside now before.router)) }
    ensures none { IfNone router.old.held ((router.new.held ≡ None) × (result ≡ 2)) }
    ensures status { result ≤ 2 }
{
    if is_outside_of(alloc, router, now) {
        return OUT_OF_RANGE;
    }
    let Ok(list) = own_addresses(alloc, list) else {
        return NO_MEMORY;
    };
    let event = Event::Addresses {
        list: list.as_slice(),
    };
    happens(alloc, router, &event, now)
}

/// The router restarts.
#[unsafe(no_mangle)]
pub extern "C" fn hn_router_restart(alloc: Global, router: &mut Handle, now: u64) -> u8
    ensures acted { IfSome router.old.held (λ before. Acted now Restart before router.new.held result) }
    ensures ranged { IfSome router.old.held (λ before. result ≡ 2 ↔ IsTrue (is_outside now before.router)) }
    ensures none { IfNone router.old.held ((router.new.held ≡ None) × (result ≡ 2)) }
    ensures status { result ≤ 2 }
{
    let _place = no_place();
    happens(alloc, router, &Event::Restart, now)
}
