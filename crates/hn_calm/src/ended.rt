//! Until when nothing ends that routers keep or see.

ghost use Rattle.std.specs.Prelude.{IfOk};
ghost use Rattle.hn_audit.specs.First.{IsFirstFound};
ghost use Rattle.hn_calm.specs.Home.{FindsEnded, LastBefore};

use crate::uncalm::Uncalm;
use hn_base::{Moment, NoMemory};
use hn_world::{Member, World};
use std::alloc::Global;

/// Whether something has ended at a moment that a router keeps or sees, where it runs.
fn ended(alloc: Global, m: &Member, now: Moment) -> Result<Option<Uncalm>, NoMemory>
    ensures { IfOk result (FindsEnded now m.now) }
{
    if !m.running {
        return Ok(None);
    }
    if now < m.router.lasts_before(alloc)? {
        return Ok(None);
    }
    Ok(Some(Uncalm::Ended { router: m.name }))
}

/// The first running router for which something has ended.
pub(crate) fn first_ended(alloc: Global, world: &World) -> Result<Option<Uncalm>, NoMemory>
    ensures { IfOk result (IsFirstFound (FindsEnded world.now.parts.moment) world.now.parts.members) }
{
    let now = world.moment();
    for m in world.members() {
        if let Some(found) = ended(alloc, m, now)? {
            return Ok(Some(found));
        }
    }
    Ok(None)
}

/// The first moment at which something ends that r or a running router keeps or sees.
pub(crate) fn last_before(alloc: Global, world: &World, r: &Member) -> Result<Moment, NoMemory>
    ensures { IfOk result (LastBefore r.now world.now.parts.members) }
{
    let mut first = r.router.lasts_before(alloc)?;
    for m in world.members() {
        if m.running {
            first = first.min(m.router.lasts_before(alloc)?);
        }
    }
    Ok(first)
}
