ghost use Rattle.std.specs.Prelude.{◌≡◌, ◌≢◌, ◌↔◌, ◌<◌, ◌≤◌, ◌^◌, ◌⊎◌, None, IsSome};
ghost use Rattle.hn_kept.specs.Kept.{IsNewKept};
ghost use Rattle.hn_router_c.specs.Calls.{Has};

use crate::happening::{DONE, LAST_MOMENT, NO_MEMORY, OUT_OF_RANGE};
use hn_base::NodeId;
use hn_handle::Handle;
use hn_kept::Keeper;
use std::alloc::Global;

/// Makes a router that begins at a moment, with an identifier and a seed of its random words. A handle that has one keeps it.
#[unsafe(no_mangle)]
pub extern "C" fn hn_router_new(
    alloc: Global,
    router: &mut Handle,
    id: u32,
    now: u64,
    seed: &[u8; 32],
) -> u8
    ensures made { result ≡ 0 → Has router.new.held (IsNewKept (record { 0 = id }) now seed.now) }
    ensures as_before { result ≢ 0 → router.new.held ≡ router.old.held }
    ensures ranged { result ≡ 2 ↔ IsSome router.old.held ⊎ (2 ^ 48 < now) }
    ensures status { result ≤ 2 }
{
    if router.has_router() || LAST_MOMENT < now {
        return OUT_OF_RANGE;
    }
    let Ok(keeper) = Keeper::new(alloc, NodeId(id), now, *seed) else {
        return NO_MEMORY;
    };
    let Ok(keeper) = Box::new(alloc, keeper) else {
        return NO_MEMORY;
    };
    *router = Handle::of(keeper);
    DONE
}

/// Gives the router up, if there is one. The handle has none after.
#[unsafe(no_mangle)]
pub extern "C" fn hn_router_free(alloc: Global, router: &mut Handle)
    ensures { router.new.held ≡ None }
{
    drop(router.take(alloc));
}
