ghost use Rattle.std.specs.Prelude.{◌≡◌, ◌≤◌, ◌^◌, IfSome, IfNone, length};

use hn_base::Moment;
use hn_handle::Handle;
use std::alloc::Global;

/// The moment at which something is due where there is no router, 2^49.
const NEVER: Moment = 562_949_953_421_312;

/// The moment up to which each tick does nothing.
#[unsafe(no_mangle)]
pub extern "C" fn hn_router_due(alloc: Global, router: &mut Handle) -> u64
    ensures kept { router.new.held ≡ router.old.held }
    ensures value { IfSome router.old.held (λ kept. result ≡ kept.router.due) }
    ensures most { result ≤ 2 ^ 49 }
    ensures none { IfNone router.old.held (result ≡ 2 ^ 49) }
{
    let Some(keeper) = router.take(alloc) else {
        return NEVER;
    };
    let value = keeper.due();
    *router = Handle::of(keeper);
    value
}

/// The moment of the last event.
#[unsafe(no_mangle)]
pub extern "C" fn hn_router_moment(alloc: Global, router: &mut Handle) -> u64
    ensures kept { router.new.held ≡ router.old.held }
    ensures value { IfSome router.old.held (λ kept. result ≡ kept.router.moment) }
    ensures none { IfNone router.old.held (result ≡ 0) }
{
    let Some(keeper) = router.take(alloc) else {
        return 0;
    };
    let value = keeper.router().moment();
    *router = Handle::of(keeper);
    value
}

/// The identifier.
#[unsafe(no_mangle)]
pub extern "C" fn hn_router_identifier(alloc: Global, router: &mut Handle) -> u32
    ensures kept { router.new.held ≡ router.old.held }
    ensures value { IfSome router.old.held (λ kept. result ≡ kept.router.id.0) }
    ensures none { IfNone router.old.held (result ≡ 0) }
{
    let Some(keeper) = router.take(alloc) else {
        return 0;
    };
    let value = keeper.router().id().0;
    *router = Handle::of(keeper);
    value
}

/// The sequence number.
#[unsafe(no_mangle)]
pub extern "C" fn hn_router_number(alloc: Global, router: &mut Handle) -> u32
    ensures kept { router.new.held ≡ router.old.held }
    ensures value { IfSome router.old.held (λ kept. result ≡ kept.router.number) }
    ensures none { IfNone router.old.held (result ≡ 0) }
{
    let Some(keeper) = router.take(alloc) else {
        return 0;
    };
    let value = keeper.router().number();
    *router = Handle::of(keeper);
    value
}

/// How many datagrams the last event sends.
#[unsafe(no_mangle)]
pub extern "C" fn hn_router_sends(alloc: Global, router: &mut Handle) -> usize
    ensures kept { router.new.held ≡ router.old.held }
    ensures value { IfSome router.old.held (λ kept. result ≡ length kept.done.sends) }
    ensures none { IfNone router.old.held (result ≡ 0) }
{
    let Some(keeper) = router.take(alloc) else {
        return 0;
    };
    let value = keeper.done().sends.len();
    *router = Handle::of(keeper);
    value
}

/// How much the last event noted.
#[unsafe(no_mangle)]
pub extern "C" fn hn_router_notes(alloc: Global, router: &mut Handle) -> usize
    ensures kept { router.new.held ≡ router.old.held }
    ensures value { IfSome router.old.held (λ kept. result ≡ length kept.done.notes) }
    ensures none { IfNone router.old.held (result ≡ 0) }
{
    let Some(keeper) = router.take(alloc) else {
        return 0;
    };
    let value = keeper.done().notes.len();
    *router = Handle::of(keeper);
    value
}

/// How many assignments there are.
#[unsafe(no_mangle)]
pub extern "C" fn hn_router_assignments(alloc: Global, router: &mut Handle) -> usize
    ensures kept { router.new.held ≡ router.old.held }
    ensures value { IfSome router.old.held (λ kept. result ≡ length kept.router.held.assigned) }
    ensures none { IfNone router.old.held (result ≡ 0) }
{
    let Some(keeper) = router.take(alloc) else {
        return 0;
    };
    let value = keeper.router().held().assigned.as_slice().len();
    *router = Handle::of(keeper);
    value
}

/// How many nodes were reachable at the last refresh, itself among them.
#[unsafe(no_mangle)]
pub extern "C" fn hn_router_nodes(alloc: Global, router: &mut Handle) -> usize
    ensures kept { router.new.held ≡ router.old.held }
    ensures value { IfSome router.old.held (λ kept. result ≡ length kept.router.reach) }
    ensures none { IfNone router.old.held (result ≡ 0) }
{
    let Some(keeper) = router.take(alloc) else {
        return 0;
    };
    let value = keeper.router().reach().len();
    *router = Handle::of(keeper);
    value
}

/// The network state hash of the last refresh.
#[unsafe(no_mangle)]
pub extern "C" fn hn_router_network_hash(alloc: Global, router: &mut Handle, hash: &mut [u8; 8])
    ensures kept { router.new.held ≡ router.old.held }
    ensures value { IfSome router.old.held (λ kept. hash.new ≡ kept.router.net) }
    ensures none { IfNone router.old.held (hash.new ≡ hash.old) }
{
    let Some(keeper) = router.take(alloc) else {
        return;
    };
    *hash = keeper.router().net();
    *router = Handle::of(keeper);
}
