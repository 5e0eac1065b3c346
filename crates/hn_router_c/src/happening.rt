ghost use Rattle.std.specs.Prelude.{◌≡◌, ◌≢◌, ◌↔◌, ◌≤◌, None, IfSome, IfNone, IsTrue};
ghost use Rattle.hn_router.specs.Act.{plain_event};
ghost use Rattle.hn_kept.specs.Kept.{Acts};
ghost use Rattle.hn_router_c.specs.Calls.{Acted, is_outside};

use hn_base::Moment;
use hn_handle::Handle;
use hn_kept::Keeper;
use hn_router::{Event, Router};
use std::alloc::Global;

/// The last moment, 2^48.
pub(crate) const LAST_MOMENT: Moment = 281_474_976_710_656;

/// The call is done.
pub(crate) const DONE: u8 = 0;

/// Out of memory.
pub(crate) const NO_MEMORY: u8 = 1;

/// A value is out of range, or the handle has no router.
pub(crate) const OUT_OF_RANGE: u8 = 2;

/// Whether no event of a router may have a moment.
pub(crate) fn is_outside(router: &Router, now: Moment) -> bool
    ensures { result ≡ is_outside now router.now }
{
    now < router.moment() || LAST_MOMENT < now
}

/// The same of the router of a handle; so it is without one.
pub(crate) fn is_outside_of(alloc: Global, handle: &mut Handle, now: Moment) -> bool
    ensures kept { handle.new.held ≡ handle.old.held }
    ensures outside { IfSome handle.old.held (λ kept. result ≡ is_outside now kept.router) }
    ensures none { IfNone handle.old.held (IsTrue result) }
{
    let Some(keeper) = handle.take(alloc) else {
        return true;
    };
    let outside = is_outside(keeper.router(), now);
    *handle = Handle::of(keeper);
    outside
}

/// An event happens to a router at a moment, which is to be none before the router's own and at most 2^48.
fn act(alloc: Global, keeper: &mut Keeper, event: &Event<'_>, now: Moment) -> u8
    ensures happened { result ≡ 0 → Acts now (plain_event event.now) keeper.old keeper.new }
    ensures as_before { result ≢ 0 → keeper.new ≡ keeper.old }
    ensures ranged { result ≡ 2 ↔ IsTrue (is_outside now keeper.old.router) }
    ensures status { result ≤ 2 }
{
    if is_outside(keeper.router(), now) {
        return OUT_OF_RANGE;
    }
    match keeper.act(alloc, event, now) {
        Ok(()) => DONE,
        Err(_) => NO_MEMORY,
    }
}

/// An event happens to the router of a handle at a moment.
pub(crate) fn happens(alloc: Global, handle: &mut Handle, event: &Event<'_>, now: Moment) -> u8
    ensures acted { IfSome handle.old.held (λ before. Acted now (plain_event event.now) before handle.new.held result) }
    ensures ranged { IfSome handle.old.held (λ before. result ≡ 2 ↔ IsTrue (is_outside now before.router)) }
    ensures none { IfNone handle.old.held ((handle.new.held ≡ None) × (result ≡ 2)) }
    ensures status { result ≤ 2 }
{
    let Some(mut keeper) = handle.take(alloc) else {
        return OUT_OF_RANGE;
    };
    let status = act(alloc, &mut keeper, event, now);
    *handle = Handle::of(keeper);
    status
}
