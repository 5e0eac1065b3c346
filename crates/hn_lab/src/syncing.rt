//! One exchange between two routers.

ghost use Rattle.std.specs.Prelude.{List};
ghost use Rattle.hn_script.specs.declared.line.Line.TheVariants as line;
ghost use Rattle.hn_play.specs.Ended.{IsAnsweredLeaving};
ghost use Rattle.hn_lab.specs.Line.{OtherEnds};
ghost use Rattle.hn_play.specs.Stage.{Route, stage_of};
ghost use Rattle.hn_play.specs.Told.{Told};

use hn_base::Name;
use hn_play::Playing;
use hn_streams::Lines;
use hn_sync::Exchange;
use hn_world::WorldFault;
use std::alloc::Global;

/// The second router asks the first for the network state, and all datagrams of this are delivered at one moment.
pub(crate) fn sync(
    playing: &mut Playing,
    alloc: Global,
    a: &Name,
    b: &Name,
) -> Result<Lines, WorldFault>
    ensures { (route : Route) (text : List Told) → IsAnsweredLeaving (OtherEnds (line.Sync a.now b.now)) result
        (stage_of playing.old route text) (stage_of playing.new route text) }
{
    playing.world.sync(alloc, a, b, &mut playing.words)?;
    Ok(Lines::new(alloc))
}
