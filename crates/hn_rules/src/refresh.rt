//! A refresh: publish where due, reachability, moments of loss, the network state hash, resets of Trickle.

ghost use Rattle.std.specs.Prelude.{◌≡◌, ◌≤◌, ◌<◌, ◌-◌, ◌^◌, ◌++◌, ◌↔◌, [], ◌∷◌, true, false, None, All, length, IsTrue, IfOk, OnOk};
ghost use Rattle.hn_own.specs.Own.{AreFew};
ghost use Rattle.hn_base.specs.Rules.{Each};
ghost use Rattle.hn_rules.specs.Rules.{Ran, AtPort};
ghost use Rattle.hn_rules.specs.Nodes.{age_at};
ghost use Rattle.hn_rules.specs.Router.{IsRefreshed, IsJustRefreshed};
ghost use Rattle.hn_rules.specs.KnownReach.{KnowsReach, HaveSamePeers};
ghost use Rattle.hn_rules.specs.Refresh.{own_items, Publishes, IsPublished, IsPublishing, IsReaching, network_state_hash};
ghost use Rattle.hn_rules.specs.Refresh.{IsPortReset, IsReset, IsHashing, IsRefresh};

use crate::done::Publication;
use crate::nodes::age_at;
use crate::reaching::{Touched, say_same_peers};
use crate::running::Running;
use crate::state::State;
use hn_base::{EpId, Moment, NoMemory, NodeIds, Shared};
use hn_data::NodeData;
use hn_graph::{AGE_LIMIT, reachability_stays, same_links_reach};
use hn_hash::{h, same_hash};
use hn_io::Draw;
use hn_own::{OwnData, OwnItems};
use hn_timers::SHORTEST_INTERVAL;
use std::alloc::Global;

/// The age from which own node data is published again, in milliseconds: 2^16 before it can no longer be sent (RFC
/// 7787, section 7.2.3).
pub(crate) const OLDEST_OWN_DATA: u64 = (1 << 32) - (1 << 16);

impl State {
    /// The own items as they are now.
    fn own_items(&self, alloc: Global) -> Result<OwnItems, NoMemory>
        ensures items { IfOk result (λ items. items ≡ own_items self.now) }
        ensures few { IfOk result AreFew }
    {
        OwnItems::of(
            alloc,
            self.caps,
            self.ports.get(),
            self.delegated.get(),
            self.held.get(),
            self.addresses.get(),
        )
    }

    /// Whether these own items are those last published, and their node data is young.
    fn is_published(&self, items: &OwnItems) -> bool
        requires { items.now ≡ own_items self.now }
        ensures { IsTrue result ↔ IsPublished self.now }
    {
        items.is(self.own.get().items()) && self.own_age() < OLDEST_OWN_DATA
    }

    /// Whether at a moment each held node without a moment of loss is one from which paths lead on. Each node is looked at
    /// only where one of them may be old. Never allocates.
    fn leads_on(&self, now: Moment) -> bool
        requires { now ≤ 2 ^ 48 }
        ensures { IsTrue result
            → All (λ node. node.stored.lost ≡ None → age_at now node.stored < 2 ^ 32 - 2 ^ 15) self.now.table.entries }
    {
        if self.table.get().are_ages_undue(now) {
            return true;
        }
        for node in self.table.get().entries() {
            if node.stored.lost.is_none() && age_at(now, &node.stored) >= AGE_LIMIT {
                return false;
            }
        }
        true
    }

    /// Whether time alone makes no refresh due at a moment: the own node data are young, and paths lead on from each
    /// reachable node. Never allocates.
    pub(crate) fn is_refresh_undue(&self, now: Moment) -> bool
        requires { now ≤ 2 ^ 48 }
        ensures young { IsTrue result → now - self.now.own.born < 2 ^ 32 - 2 ^ 16 }
        ensures leads { IsTrue result
            → All (λ node. node.stored.lost ≡ None → age_at now node.stored < 2 ^ 32 - 2 ^ 15) self.now.table.entries }
    {
        now.saturating_sub(self.own.get().born()) < OLDEST_OWN_DATA && self.leads_on(now)
    }

    /// The network state hash of the reachable nodes.
    fn network_state_hash(&self, alloc: Global) -> Result<[u8; 8], NoMemory>
        ensures { IfOk result (λ hash. hash ≡ network_state_hash self.now) }
    {
        let text = self.parts(alloc)?;
        Ok(h(text.as_slice()))
    }
}

impl Running {
    /// Enters node data as published with a sequence number.
    fn enter(&mut self, number: u32, body: &NodeData) -> Result<(), NoMemory>
        ensures { OnOk result (self.new ≡ record self.old {
          done = record self.old.done {
            published = self.old.done.published ++ record { id = self.old.state.id; number = number; body = body.now } ∷ [];
          };
        }) }
    {
        let body = body.share()?;
        self.done.published.push(Publication {
            id: self.state.id,
            number,
            body,
        })
    }

    /// Publishes own items with a sequence number: whether they say the same peers as before.
    fn publish_items(
        &mut self,
        alloc: Global,
        number: u32,
        items: OwnItems,
    ) -> Result<bool, NoMemory>
        requires items { items ≡ own_items self.old.state }
        requires few { AreFew items }
        ensures publishes { OnOk result (Publishes number self.old self.new) }
        ensures peers { IfOk result (λ same. same ≡ true → HaveSamePeers self.old.state.own.body self.new.state.own.body) }
    {
        let own = OwnData::new(alloc, items, self.state.moment.get())?;
        let same = say_same_peers(self.state.own.get().body(), own.body());
        self.enter(number, own.body())?;
        self.state.number = number;
        self.state.own = Shared::new(alloc, own)?;
        Ok(same)
    }

    /// Publishes the present own items with a sequence number.
    pub(crate) fn publish(&mut self, alloc: Global, number: u32) -> Result<(), NoMemory>
        ensures { OnOk result (Publishes number self.old self.new) }
    {
        let items = self.state.own_items(alloc)?;
        self.publish_items(alloc, number, items)?;
        Ok(())
    }

    /// Publishes where due: whether the own node data say the same peers as before.
    fn publish_where_due(&mut self, alloc: Global) -> Result<bool, NoMemory>
        ensures publishing { OnOk result (IsPublishing self.old self.new) }
        ensures peers { IfOk result (λ same. same ≡ true → HaveSamePeers self.old.state.own.body self.new.state.own.body) }
    {
        let items = self.state.own_items(alloc)?;
        if self.state.is_published(&items) {
            return Ok(true);
        }
        self.publish_items(alloc, self.state.number.wrapping_add(1), items)
    }

    /// These nodes are reachable. Where they were so before, what is kept of them stays.
    fn put_reach(&mut self, alloc: Global, reach: NodeIds) -> Result<(), NoMemory>
        ensures { OnOk result (self.new ≡ record self.old { state = record self.old.state { reach = reach } }) }
    {
        if self.state.reaches(&reach) {
            return Ok(());
        }
        self.state.reach = Shared::new(alloc, reach)?;
        Ok(())
    }

    /// Reachability, and moments of loss.
    pub(crate) fn find_reach(&mut self, alloc: Global) -> Result<(), NoMemory>
        ensures { OnOk result (IsReaching self.old self.new) }
    {
        let reach = self.state.reachable(alloc)?;
        let now = self.state.moment.get();
        if self.state.table.get().needs_mark(reach.as_slice()) {
            self.state.table.edit()?.mark(reach.as_slice(), now);
        }
        self.put_reach(alloc, reach)
    }

    /// Resets Trickle of an endpoint.
    fn reset_port<D: Draw>(&mut self, alloc: Global, at: EpId, draw: &mut D) -> Result<(), NoMemory>
        ensures { OnOk result (Ran (AtPort at IsPortReset) (D.words draw.old) (D.words draw.new) self.old self.new) }
    {
        let now = self.state.moment.get();
        let Some(port) = self.state.ports.get().find(at) else {
            return Ok(());
        };
        if port.trickle.len == SHORTEST_INTERVAL {
            return Ok(());
        }
        let mut port = port.clone()?;
        let word = self.take(draw)?;
        port.trickle.reset(now, word);
        self.put_port(alloc, port)
    }

    /// Resets Trickle of each endpoint.
    fn reset_ports<D: Draw>(&mut self, alloc: Global, draw: &mut D) -> Result<(), NoMemory>
        ensures { OnOk result (Ran IsReset (D.words draw.old) (D.words draw.new) self.old self.new) }
    {
        let endpoints = self.state.ports.get().endpoints(alloc)?;
        for at in &endpoints {
            self.reset_port(alloc, *at, draw)?;
        }
        Ok(())
    }

    /// The network state hash, and resets of Trickle where it changed.
    fn find_hash<D: Draw>(&mut self, alloc: Global, draw: &mut D) -> Result<(), NoMemory>
        ensures { OnOk result (Ran IsHashing (D.words draw.old) (D.words draw.new) self.old self.new) }
    {
        let hash = self.state.network_state_hash(alloc)?;
        if same_hash(hash, self.state.net) {
            return Ok(());
        }
        self.state.net = hash;
        self.reset_ports(alloc, draw)
    }

    /// A refresh. Where nothing was touched that it makes and no age is due, it changes nothing and computes nothing.
    ///
    /// # Errors
    ///
    /// Out of memory. No clause says what the `Running` is then.
    pub fn refresh<D: Draw>(
        &mut self,
        alloc: Global,
        touched: bool,
        draw: &mut D,
    ) -> Result<(), NoMemory>
        requires { touched ≡ false → IsRefreshed self.old.state }
        ensures ran { OnOk result (Ran IsRefresh (D.words draw.old) (D.words draw.new) self.old self.new) }
        ensures refreshed { OnOk result (IsRefreshed self.new.state) }
        ensures fresh { OnOk result (IsJustRefreshed self.new.state) }
    {
        let touched = Touched {
            any: touched,
            links: touched,
        };
        self.refresh_after(alloc, touched, draw)
    }

    /// The same, where this was touched. Where no links are, no age is due and the own node data say the same peers, the
    /// same nodes are reachable, and none is looked for.
    pub(crate) fn refresh_after<D: Draw>(
        &mut self,
        alloc: Global,
        touched: Touched,
        draw: &mut D,
    ) -> Result<(), NoMemory>
        requires untouched { touched.any ≡ false → IsRefreshed self.old.state }
        requires linked { touched.links ≡ false → KnowsReach self.old.state }
        ensures ran { OnOk result (Ran IsRefresh (D.words draw.old) (D.words draw.new) self.old self.new) }
        ensures refreshed { OnOk result (IsRefreshed self.new.state) }
        ensures fresh { OnOk result (IsJustRefreshed self.new.state) }
    {
        reachability_stays();
        same_links_reach();
        let _kept = self.state.ports.get().as_slice();
        let now = self.state.moment.get();
        let recent = self.state.is_refresh_undue(now);
        if !touched.any && recent {
            return Ok(());
        }
        let same = self.publish_where_due(alloc)?;
        let known = touched.leaves_reach(same, recent);
        self.renew_reach(alloc, known)?;
        self.find_hash(alloc, draw)
    }
}
