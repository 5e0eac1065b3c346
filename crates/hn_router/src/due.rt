//! The moment that a router keeps after an event: before it each tick does nothing.

ghost use Rattle.std.specs.Prelude.{◌≡◌, ◌≤◌, ◌↔◌, IfOk, IsTrue};
ghost use Rattle.hn_rules.specs.Router.{IsRouter};
ghost use Rattle.hn_rules.specs.Rules.{begun_at};
ghost use Rattle.hn_router.specs.Act.{plain_event, Tick, IsEvent, DidNothing, IsDueAfter};

use crate::event::Event;
use crate::laws::events_keep_the_moment;
use hn_base::{Moment, NoMemory};
use hn_rules::{Running, State};
use std::alloc::Global;

/// Whether the event is a tick. Never allocates.
pub(crate) fn is_tick(event: &Event<'_>) -> bool
    ensures { IsTrue result ↔ (plain_event event.now ≡ Tick) }
{
    matches!(*event, Event::Tick)
}

/// Whether the event that ran from a router was a tick that did nothing. Never allocates.
fn did_nothing(event: &Event<'_>, now: Moment, before: &State, after: &Running) -> bool
    requires router { IsRouter before.now }
    requires not_before { before.now.moment ≤ now }
    requires ran { IsEvent (plain_event event.now) (begun_at now before.now) after.now }
    ensures { IsTrue result ↔ DidNothing (plain_event event.now) (begun_at now before.now) after.now }
{
    events_keep_the_moment();
    is_tick(event) && after.was_idle(before)
}

/// The moment that a router keeps after the event that ran from it: after a tick that did nothing the one at which
/// something is next due, and else 0.
pub(crate) fn due_after(
    alloc: Global,
    event: &Event<'_>,
    now: Moment,
    before: &State,
    after: &Running,
) -> Result<Moment, NoMemory>
    requires router { IsRouter before.now }
    requires not_before { before.now.moment ≤ now }
    requires ran { IsEvent (plain_event event.now) (begun_at now before.now) after.now }
    ensures { IfOk result (IsDueAfter (plain_event event.now) (begun_at now before.now) after.now) }
{
    if !did_nothing(event, now, before, after) {
        return Ok(0);
    }
    after.state.next_due(alloc)
}
