//! Whether a tick did nothing.

ghost use Rattle.std.specs.Prelude.{◌≡◌, ◌↔◌, ◌≤◌, IsTrue};
ghost use Rattle.hn_rules.specs.Done.{nothing};
ghost use Rattle.hn_rules.specs.Idle.{IsLeft};
ghost use Rattle.hn_rules.specs.Router.{IsRouter};
ghost use Rattle.hn_rules.specs.Rules.{begun_at};
ghost use Rattle.hn_rules.specs.Undue.{at_moment};
ghost use Rattle.hn_rules.specs.Ticks.{IsTick};

use crate::laws::{idle_is_undue, rules_have_one_result, tick_of_nothing_is_undue, undue_is_idle};
use crate::running::Running;
use crate::state::State;
use hn_assign::{Backoff, Held, same_assigned};
use hn_base::{Moment, NodeId, NodeIds};

/// Whether two lists have the same identifiers.
fn same_nodes(a: &[NodeId], b: &[NodeId]) -> bool
    ensures { IsTrue result ↔ (a.now ≡ b.now) }
{
    a == b
}

/// Whether two lists have the same backoffs.
fn same_backoffs(a: &[Backoff], b: &[Backoff]) -> bool
    ensures { IsTrue result ↔ (a.now ≡ b.now) }
{
    a == b
}

impl State {
    /// Whether these are the router's reachable nodes.
    pub(crate) fn reaches(&self, reach: &NodeIds) -> bool
        ensures { IsTrue result ↔ (reach.now ≡ self.now.reach) }
    {
        same_nodes(reach.as_slice(), self.reach.get().as_slice())
    }

    /// Whether these are the router's assignments.
    pub(crate) fn has_assigned(&self, held: &Held) -> bool
        ensures { IsTrue result ↔ (held.now.assigned ≡ self.now.held.assigned) }
    {
        let kept = self.held.get().get();
        same_assigned(held.assigned.as_slice(), kept.assigned.as_slice())
    }

    /// Whether these are the router's backoffs.
    pub(crate) fn has_backoffs(&self, held: &Held) -> bool
        ensures { IsTrue result ↔ (held.now.backoffs ≡ self.now.held.backoffs) }
    {
        let kept = self.held.get().get();
        same_backoffs(held.backoffs.as_slice(), kept.backoffs.as_slice())
    }

    /// Whether another state has the same assignments and backoffs.
    fn holds_as(&self, other: &State) -> bool
        ensures { IsTrue result ↔ (self.now.held ≡ other.now.held) }
    {
        let held = self.held.get().get();
        let assigned = other.has_assigned(held);
        let backoffs = other.has_backoffs(held);
        assigned && backoffs
    }

    /// Whether a tick at a moment left these parts of a router as they were.
    fn is_left(&self, before: &State, now: Moment) -> bool
        ensures { IsTrue result ↔ IsLeft now before.now self.now }
    {
        before.reaches(self.reach.get())
            && self.holds_as(before)
            && !before.table.get().needs_forget(now)
            && before.are_ports_undue(now)
    }
}

impl Running {
    /// Whether the tick that ran from a router did nothing. Never allocates.
    pub fn was_idle(&self, before: &State) -> bool
        requires router { IsRouter before.now }
        requires not_before { before.now.moment ≤ self.now.state.moment }
        requires ran { IsTick (begun_at self.now.state.moment before.now) self.now }
        ensures { IsTrue result ↔ ((self.now.state ≡ at_moment self.now.state.moment before.now) × (self.now.done ≡ nothing)) }
    {
        undue_is_idle();
        idle_is_undue();
        tick_of_nothing_is_undue();
        rules_have_one_result();
        if !self.done.is_nothing() {
            return false;
        }
        self.state.is_left(before, self.state.moment.get())
    }
}
