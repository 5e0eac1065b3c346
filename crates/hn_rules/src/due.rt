//! When something is next due for a router.

ghost use Rattle.std.specs.Prelude.{IfOk};
ghost use Rattle.hn_base.specs.Sooner.{IsSooner, IsOfElement};
ghost use Rattle.hn_dncp.specs.Due.{IsPortDue};
ghost use Rattle.hn_rules.specs.Due.{IsPeerEnd, IsDueAtPort, IsKeptDue, IsSeenDue, IsNextDue, IsUndueUntil};

use crate::refresh::OLDEST_OWN_DATA;
use crate::state::State;
use hn_base::{Moment, NoMemory, sooner};
use hn_data::items_are_unique;
use hn_deleg::next_end;
use hn_dncp::{Neighbour, Port};
use hn_graph::next_age_limit;
use hn_timers::next_expiry;
use std::alloc::Global;

/// What stands for a moment that never comes. No router has one so late.
const NEVER: Moment = 1 << 49;

impl State {
    /// The moment from which the keep-alives of a peer have stopped, where that is after now and before `best`; else
    /// `best`. Never allocates.
    fn next_of_peer(&self, peer: &Neighbour, best: Moment) -> Moment
        ensures { IsSooner (IsPeerEnd self.now.table.entries peer.now) self.now.moment best result }
    {
        items_are_unique();
        let interval = self.interval(peer);
        next_expiry(peer.contact, interval, self.moment.get(), best)
    }

    /// The first of these moments of peers.
    fn next_of_peers(&self, peers: &[Neighbour], best: Moment) -> Moment
        ensures { IsSooner (IsOfElement (IsPeerEnd self.now.table.entries) peers.now) self.now.moment best result }
    {
        let mut first = best;
        for peer in peers {
            first = self.next_of_peer(peer, first);
        }
        first
    }

    /// The first moment at which something is due at an endpoint.
    fn next_of_port(&self, port: &Port, best: Moment) -> Moment
        ensures { IsSooner (IsDueAtPort self.now.table.entries port.now) self.now.moment best result }
    {
        let first = self.next_of_peers(port.peers.as_slice(), best);
        port.next_due(self.moment.get(), first)
    }

    /// The first of these moments of the endpoints.
    fn next_of_ports(&self, best: Moment) -> Moment
        ensures { IsSooner (IsOfElement (IsDueAtPort self.now.table.entries) self.now.ports) self.now.moment best result }
    {
        let mut first = best;
        for port in self.ports.get().as_slice() {
            first = self.next_of_port(port, first);
        }
        first
    }

    /// The first moment at which something is due of what the router keeps.
    fn next_kept(&self, best: Moment) -> Moment
        ensures { IsSooner (IsKeptDue self.now) self.now.moment best result }
    {
        let now = self.moment.get();
        let end = self.delegated.get().next_end(now, best);
        let old = self.own.get().born().saturating_add(OLDEST_OWN_DATA);
        let age = sooner(now, end, old);
        let forgetting = self.table.get().next_forgetting(now, age);
        self.held.get().get().next_due(now, forgetting)
    }

    /// The first moment at which something is due of what the router sees.
    fn next_seen(&self, alloc: Global, best: Moment) -> Result<Moment, NoMemory>
        ensures { IfOk result (λ first. IsSooner (IsSeenDue self.now) self.now.moment best first) }
    {
        let nodes = self.seen(alloc)?;
        let view = self.view(nodes.as_slice());
        let end = next_end(&view, best);
        Ok(next_age_limit(nodes.as_slice(), self.moment.get(), end))
    }

    /// The first moment after the router's at which something is due for it; 2^49, where none comes before that.
    ///
    /// # Errors
    ///
    /// Out of memory.
    pub fn next_due(&self, alloc: Global) -> Result<Moment, NoMemory>
        ensures { IfOk result (IsNextDue self.now) }
    {
        let ports = self.next_of_ports(NEVER);
        let kept = self.next_kept(ports);
        self.next_seen(alloc, kept)
    }
    /// The first moment after the router's at which an endpoint's timers are due, and not its peers; else `best`. Never
    /// allocates.
    fn next_of_timers(&self, best: Moment) -> Moment
        ensures { IsSooner (IsOfElement IsPortDue self.now.ports) self.now.moment best result }
    {
        let now = self.moment.get();
        let mut first = best;
        for port in self.ports.get().as_slice() {
            first = port.next_due(now, first);
        }
        first
    }

    /// The same as `next_due`, in less time where nothing is due before a moment, and then an endpoint's timers are.
    ///
    /// # Errors
    ///
    /// Out of memory.
    pub fn next_due_from(&self, alloc: Global, until: Moment) -> Result<Moment, NoMemory>
        requires { IsUndueUntil until self.now }
        ensures { IfOk result (IsNextDue self.now) }
    {
        if self.next_of_timers(NEVER) == until {
            return Ok(until);
        }
        self.next_due(alloc)
    }
}
