//! An endpoint begins to send Router Advertisements, and a solicitation comes.

ghost use Rattle.std.specs.Prelude.{List, Some, Err};
ghost use Rattle.hn_script.specs.declared.line.Line.TheVariants as line;
ghost use Rattle.hn_play.specs.Ended.{IsAnsweredLeaving};
ghost use Rattle.hn_lab.specs.Line.{OtherEnds};
ghost use Rattle.hn_play.specs.Stage.{Route, stage_of};
ghost use Rattle.hn_play.specs.Told.{Told};

use hn_base::{EpId, Name};
use hn_io::Draw;
use hn_play::{Playing, unless_elects};
use hn_streams::Lines;
use hn_world::WorldFault;
use std::alloc::Global;

/// An endpoint of a router begins to send, anew where it sends. Nothing comes up.
pub(crate) fn radv(
    playing: &mut Playing,
    alloc: Global,
    name: Name,
    endpoint: EpId,
) -> Result<Lines, WorldFault>
    ensures { (route : Route) (text : List Told) → IsAnsweredLeaving (OtherEnds (line.Radv name endpoint)) result
        (stage_of playing.old route text) (stage_of playing.new route text) }
{
    if let Some(code) = unless_elects(&playing.world, &name, endpoint) {
        return Err(WorldFault::Refused(code));
    }
    playing
        .senders
        .start(name, endpoint, playing.world.moment())?;
    Ok(Lines::new(alloc))
}

/// A solicitation comes to an endpoint of a router; one that does not send lets it pass. Nothing comes up.
pub(crate) fn solicit(
    playing: &mut Playing,
    alloc: Global,
    name: &Name,
    endpoint: EpId,
) -> Result<Lines, WorldFault>
    ensures { (route : Route) (text : List Told) → IsAnsweredLeaving (OtherEnds (line.Solicit name.now endpoint)) result
        (stage_of playing.old route text) (stage_of playing.new route text) }
{
    if let Some(code) = unless_elects(&playing.world, name, endpoint) {
        return Err(WorldFault::Refused(code));
    }
    if let Some(place) = playing.senders.place_of(name, endpoint) {
        let mut sender = playing.senders.at(place).sender;
        sender.solicit(playing.world.moment(), playing.words.next());
        playing.senders.set(place, sender);
    }
    Ok(Lines::new(alloc))
}
