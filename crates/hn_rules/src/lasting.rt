//! Until when nothing that a router keeps or sees comes to its end.

ghost use Rattle.std.specs.Prelude.{◌≡◌, ◌↔◌, ◌<◌, ◌^◌, ◌-◌, ℕ, None, All, false, IfOk};
ghost use Rattle.hn_own.specs.OwnPrefixes.{has_ended_one};
ghost use Rattle.hn_rules.specs.Lasting.{LastsBefore};
ghost use Rattle.hn_rules.specs.Nodes.{age_at};
ghost use Rattle.hn_rules.specs.Router.{IsRouter};

use crate::refresh::OLDEST_OWN_DATA;
use crate::state::State;
use hn_base::{Moment, NoMemory};
use hn_deleg::next_end;
use hn_graph::AGE_LIMIT;
use hn_own::{OwnPrefixes, ending_is_a_moment};
use hn_store::{HeldNode, Stored};
use std::alloc::Global;

/// The moment from which no path leads on from a node with these data, if it is not lost, where that is before `best`;
/// else `best`.
fn leads_before(stored: &Stored, best: Moment) -> Moment
    ensures { (until : ℕ) → (until < result)
        ↔ ((until < best) × (stored.now.lost ≡ None → age_at until stored.now < 2 ^ 32 - 2 ^ 15)) }
{
    if stored.lost.is_some() {
        return best;
    }
    let left = AGE_LIMIT.saturating_sub(u64::from(stored.age));
    if left == 0 {
        return 0;
    }
    best.min(stored.at.saturating_add(left))
}

/// The first of these moments of nodes.
fn all_lead_before(nodes: &[HeldNode], best: Moment) -> Moment
    ensures { (until : ℕ) → (until < result)
        ↔ ((until < best) × All (λ node. node.stored.lost ≡ None → age_at until node.stored < 2 ^ 32 - 2 ^ 15) nodes.now) }
{
    let mut first = best;
    for node in nodes {
        first = leads_before(&node.stored, first);
    }
    first
}

/// The moment at which the first of a router's own delegated prefixes ends, where that is before `best`; else `best`.
fn own_last_before(own: &OwnPrefixes, best: Moment) -> Moment
    ensures { (until : ℕ) → (until < result) ↔ ((until < best) × (has_ended_one until own.now ≡ false)) }
{
    ending_is_a_moment();
    if own.needs_end(0) {
        return 0;
    }
    own.next_end(0, best)
}

impl State {
    /// The first moment at which something ends that a router keeps or sees: one of its own delegated prefixes, a
    /// lifetime that it sees announced, or that node data are young. Before it nothing of this ends.
    ///
    /// # Errors
    ///
    /// Out of memory.
    pub fn lasts_before(&self, alloc: Global) -> Result<Moment, NoMemory>
        requires { IsRouter self.now }
        ensures { IfOk result (LastsBefore self.now) }
    {
        let _moment = self.moment.get();
        let old = self.own.get().born().saturating_add(OLDEST_OWN_DATA);
        let leads = all_lead_before(self.table.get().entries(), old);
        let own = own_last_before(self.delegated.get(), leads);
        let nodes = self.seen(alloc)?;
        let view = self.view(nodes.as_slice());
        Ok(next_end(&view, own))
    }
}
