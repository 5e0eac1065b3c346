ghost use Rattle.std.specs.Prelude.{◌≡◌, ◌<◌, ◌+◌, List, [], None, OnOk, length};
ghost use Rattle.hn_world.specs.Replay.{empty_world};
ghost use Rattle.hn_world.specs.Step.{IsWorldEventInRange};
ghost use Rattle.hn_play.specs.Delivery.{EventNotes, EventEnds};
ghost use Rattle.hn_play.specs.Ended.{IsAnsweredWith, IsAnswered};
ghost use Rattle.hn_play.specs.Stage.{begun, Route, stage_of};
ghost use Rattle.hn_play.specs.Told.{Told};

use crate::carrying::Room;
use crate::stream::Stream;
use hn_base::{Sequence, Version};
use hn_rules::Note;
use hn_senders::Senders;
use hn_world::{WEvent, World, WorldFault, each_event_is_entered};
use std::alloc::Global;

/// A play so far: its world, of a hundred copies how many `flow` loses, the random words that are to come, those that
/// send Router Advertisements, and the room for a copy that comes back from a wire, which no report sees.
#[derive(Drop)]
pub struct Playing {
    pub world: World,
    pub loss: u8,
    pub words: Stream,
    pub senders: Senders,
    pub room: Room,
}

/// A world of a version with nothing in it, which records its trace or not. Never allocates.
fn empty_world(alloc: Global, version: Version, recorded: bool) -> World
    ensures { result.parts ≡ empty_world version }
{
    if recorded {
        World::recording(alloc, version)
    } else {
        World::without_trace(alloc, version)
    }
}

impl Playing {
    /// The play of a script of a version, as it begins; its world records its trace or not. Never allocates.
    pub fn new(alloc: Global, version: Version, recorded: bool) -> Playing
        ensures { (route : Route) → stage_of result route [] ≡ begun route version }
    {
        Playing {
            world: empty_world(alloc, version, recorded),
            loss: 0,
            words: Stream::zeros(),
            senders: Senders::new(alloc),
            room: Room::new(alloc),
        }
    }

    /// An event. Answers what routers noted.
    ///
    /// # Errors
    ///
    /// It is refused, or memory ended.
    pub fn noted(&mut self, alloc: Global, event: WEvent) -> Result<Sequence<Note>, WorldFault>
        requires { IsWorldEventInRange event }
        ensures ends { (route : Route) (text : List Told) → IsAnsweredWith (λ notes. EventNotes event notes None)
            (EventEnds event)
            result (stage_of self.old route text) (stage_of self.new route text) }
        ensures entered { OnOk result ((length self.old.world.parts.trace < 1000000)
            × (length self.new.world.parts.trace ≡ length self.old.world.parts.trace + 1)) }
    {
        each_event_is_entered();
        Ok(self.world.apply(alloc, event, &mut self.words)?)
    }

    /// An event of which nothing comes up.
    ///
    /// # Errors
    ///
    /// It is refused, or memory ended.
    pub fn event(&mut self, alloc: Global, event: WEvent) -> Result<(), WorldFault>
        requires { IsWorldEventInRange event }
        ensures ends { (route : Route) (text : List Told)
            → IsAnswered (EventEnds event) result (stage_of self.old route text) (stage_of self.new route text) }
        ensures entered { OnOk result ((length self.old.world.parts.trace < 1000000)
            × (length self.new.world.parts.trace ≡ length self.old.world.parts.trace + 1)) }
    {
        let _notes = self.noted(alloc, event)?;
        Ok(())
    }
}
