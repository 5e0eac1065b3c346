//! What a router chooses for itself: its addresses, and a delegated prefix of its own making.

ghost use Rattle.std.specs.Prelude.{◌≡◌, List, Option, None, Some, Err, IfSome};
ghost use Rattle.hn_base.specs.Name.{name_text};
ghost use Rattle.hn_script.specs.declared.line.Line.TheVariants as line;
ghost use Rattle.hn_lab.specs.Choosing.{chosen_event, decided_event, MayHappen};
ghost use Rattle.hn_play.specs.Ended.{IsAnswered, IsAnsweredLeaving};
ghost use Rattle.hn_lab.specs.Line.{OtherEnds};
ghost use Rattle.hn_play.specs.Stage.{Route, stage_of};
ghost use Rattle.hn_play.specs.Told.{Told};
ghost use Rattle.hn_report.specs.UlaLines.{ula_line};
ghost use Rattle.hn_world.specs.Names.{member_named};
ghost use Rattle.hn_world.specs.Asked.{unless_runs};
ghost use Rattle.hn_world.specs.Step.{IsWorldEventInRange};
ghost use Rattle.hn_world.specs.declared.member.Member.{Member};

use hn_addr::{Choice, choose};
use hn_base::Name;
use hn_play::Playing;
use hn_report::ula_line;
use hn_router::Router;
use hn_streams::Lines;
use hn_ula::{Ula, decide};
use hn_world::{WEvent, World, WorldFault};
use std::alloc::Global;

/// The running router of a name.
fn running<'a>(world: &'a World, name: &Name) -> &'a Router
    requires { unless_runs name.now world.now.parts ≡ None }
    ensures { (m : Member) × (member_named (name_text name.now) world.now.parts ≡ Some m) × (result.now ≡ m.router) }
{
    let Some(router) = world.router(name) else {
        unreachable!()
    };
    router
}

/// The event by which a choice of addresses is made true.
fn chosen_event(name: Name, choice: Choice) -> Option<WEvent>
    ensures event { result ≡ chosen_event name choice }
    ensures in_range { IfSome result IsWorldEventInRange }
{
    match choice {
        Choice::Keep => None,
        Choice::Set(list) => Some(WEvent::Addresses { name, list }),
    }
}

/// The event by which a decision is made true; a prefix is announced for ever.
fn decided_event(name: Name, decided: &Ula) -> Option<WEvent>
    ensures event { result ≡ decided_event name decided.now }
    ensures in_range { IfSome result IsWorldEventInRange }
{
    match decided {
        Ula::Keep => None,
        Ula::Announce(prefix) => Some(WEvent::External {
            name,
            prefix: *prefix,
            valid: u32::MAX,
            preferred: u32::MAX,
        }),
        Ula::Withdraw(prefix) => Some(WEvent::Withdraw {
            name,
            prefix: *prefix,
        }),
    }
}

/// An event happens, if there is one. Nothing comes up.
fn may_happen(playing: &mut Playing, alloc: Global, event: Option<WEvent>) -> Result<(), WorldFault>
    requires { IfSome event IsWorldEventInRange }
    ensures { (route : Route) (text : List Told) → IsAnswered (MayHappen event) result (stage_of playing.old route text)
        (stage_of playing.new route text) }
{
    match event {
        None => Ok(()),
        Some(event) => playing.event(alloc, event),
    }
}

/// The router of a name chooses its addresses, and gets them.
pub(crate) fn address(playing: &mut Playing, alloc: Global, name: Name) -> Result<Lines, WorldFault>
    ensures { (route : Route) (text : List Told) → IsAnsweredLeaving (OtherEnds (line.Address name)) result
        (stage_of playing.old route text) (stage_of playing.new route text) }
{
    if let Some(code) = playing.world.unless_runs(&name) {
        return Err(WorldFault::Refused(code));
    }
    let router = running(&playing.world, &name);
    let choice = choose(alloc, router, &mut playing.words)?;
    may_happen(playing, alloc, chosen_event(name, choice))?;
    Ok(Lines::new(alloc))
}

/// The router of a name decides on a delegated prefix of its own making, and announces or withdraws it.
pub(crate) fn ula(playing: &mut Playing, alloc: Global, name: Name) -> Result<Lines, WorldFault>
    ensures { (route : Route) (text : List Told) → IsAnsweredLeaving (OtherEnds (line.Ula name)) result
        (stage_of playing.old route text) (stage_of playing.new route text) }
{
    if let Some(code) = playing.world.unless_runs(&name) {
        return Err(WorldFault::Refused(code));
    }
    let router = running(&playing.world, &name);
    let decided = decide(alloc, router, &mut playing.words)?;
    may_happen(playing, alloc, decided_event(name, &decided))?;
    Ok(ula_line(alloc, &name, &decided)?)
}
