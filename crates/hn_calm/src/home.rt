//! The first premise of a calm home that is missing.

ghost use Rattle.std.specs.Prelude.{IfOk};
ghost use Rattle.hn_audit.specs.First.{IsFirstFound};
ghost use Rattle.hn_calm.specs.Home.{FindsApart, FindsWaiting, FindsUncalm};

use crate::ended::first_ended;
use crate::peers::missing_of_peers;
use crate::uncalm::Uncalm;
use hn_base::{NoMemory, NodeId};
use hn_world::{Member, World};
use std::alloc::Global;

/// Whether a router runs, and has none of these identifiers.
fn apart(m: &Member, reach: &[NodeId]) -> Option<Uncalm>
    ensures { FindsApart reach.now m.now result }
{
    if !m.running {
        return None;
    }
    if reach.contains(&m.router.id()) {
        return None;
    }
    Some(Uncalm::Apart { router: m.name })
}

/// The first router that does.
fn first_apart(world: &World, reach: &[NodeId]) -> Option<Uncalm>
    ensures { IsFirstFound (FindsApart reach.now) world.now.parts.members result }
{
    for m in world.members() {
        if let Some(found) = apart(m, reach) {
            return Some(found);
        }
    }
    None
}

/// Whether a copy waits.
fn waiting(world: &World) -> Option<Uncalm>
    ensures { FindsWaiting world.now.parts.copies result }
{
    match world.next_waiting() {
        Some(copy) => Some(Uncalm::Waits { copy }),
        None => None,
    }
}

/// The first premise that is missing for the home of a router that is settled and quiet.
pub(crate) fn first_uncalm(
    alloc: Global,
    world: &World,
    r: &Member,
) -> Result<Option<Uncalm>, NoMemory>
    ensures { IfOk result (FindsUncalm world.now.parts r.now) }
{
    if let Some(found) = first_apart(world, r.router.reach()) {
        return Ok(Some(found));
    }
    if let Some(found) = waiting(world) {
        return Ok(Some(found));
    }
    if let Some(found) = missing_of_peers(world, r) {
        return Ok(Some(found));
    }
    first_ended(alloc, world)
}
