//! The parts of a tick: silent peers and lost nodes go, and each endpoint sends what is due.

ghost use Rattle.std.specs.Prelude.{◌≡◌, IsTrue, ◌↔◌, All, IfOk, OnOk, false, Some};
ghost use Rattle.hn_dncp.specs.Due.{IsPortUndue};
ghost use Rattle.hn_dncp.specs.Tick.{tick_sends};
ghost use Rattle.hn_store.specs.Nodes.{held};
ghost use Rattle.hn_dncp.specs.declared.port.Port.{Port};
ghost use Rattle.hn_own.specs.Ports.{port_at};
ghost use Rattle.hn_rules.specs.Rules.{AtPort, Ran};
ghost use Rattle.hn_rules.specs.Router.{IsRefreshed};
ghost use Rattle.hn_rules.specs.Undue.{AreHeard};
ghost use Rattle.hn_rules.specs.Tick.{HasInterval, IsExpired, Without, IsPortExpiry, IsExpiry, forgetting, IsStateSending};
ghost use Rattle.hn_rules.specs.Tick.{IsPortMoving, IsPortTick, IsPortsTick};

use crate::running::Running;
use crate::state::State;
use hn_base::{EpId, KEEP_ALIVE_INTERVAL, Moment, NoMemory};
use hn_data::{encode, items_are_unique, keep_alive};
use hn_dncp::{Neighbour, Peers, Port, pack, undue_port};
use hn_io::Draw;
use hn_timers::expired;
use hn_typed::Item;
use std::alloc::Global;

impl State {
    /// The keep-alive interval of a peer, in milliseconds.
    pub(crate) fn interval(&self, peer: &Neighbour) -> u32
        ensures { HasInterval (held self.now.table.entries peer.now.node.0) peer.now.endpoint result }
    {
        match self.table.get().get(peer.node) {
            Some(stored) => keep_alive(&stored.body, peer.endpoint),
            None => KEEP_ALIVE_INTERVAL,
        }
    }

    /// Whether a peer's keep-alives have stopped.
    fn is_expired(&self, peer: &Neighbour) -> bool
        ensures { IsTrue result ↔ IsExpired self.now peer.now }
    {
        items_are_unique();
        let interval = self.interval(peer);
        expired(peer.contact, interval, self.moment.get())
    }

    /// Whether the keep-alives of one of these peers have stopped. Never allocates.
    fn is_some_expired(&self, peers: &[Neighbour]) -> bool
        ensures { result ≡ false → All (λ peer. ¬ (IsExpired self.now peer)) peers.now }
    {
        for peer in peers {
            if self.is_expired(peer) {
                return true;
            }
        }
        false
    }

    /// Whether the keep-alives of a peer of an endpoint have stopped. Never allocates.
    fn has_expired(&self, at: EpId) -> bool
        ensures { result ≡ false → (port : Port) → port_at at self.now.ports ≡ Some port
            → All (λ peer. ¬ (IsExpired self.now peer)) port.peers }
    {
        match self.ports.get().find(at) {
            Some(port) => self.is_some_expired(port.peers.as_slice()),
            None => false,
        }
    }

    /// Takes out the peers whose keep-alives have stopped.
    fn expire(&self, peers: &mut Peers)
        ensures { Without (IsExpired self.now) peers.old peers.new }
    {
        let mut place = 0;
        while place < peers.len() {
            if self.is_expired(&peers.as_slice()[place]) {
                peers.remove_at(place);
            } else {
                place += 1;
            }
        }
    }
}

impl State {
    /// Whether the keep-alives of some peer have stopped. Never allocates.
    fn has_expired_peer(&self) -> bool
        ensures { result ≡ false → AreHeard self.now.moment self.now }
    {
        for port in self.ports.get().as_slice() {
            if self.is_some_expired(port.peers.as_slice()) {
                return true;
            }
        }
        false
    }

    /// Whether nothing is due at any endpoint. Never allocates.
    pub(crate) fn are_ports_undue(&self, now: Moment) -> bool
        ensures { IsTrue result ↔ All (IsPortUndue now) self.now.ports }
    {
        self.ports
            .get()
            .as_slice()
            .iter()
            .all(|port| port.is_port_undue(now))
    }
}

impl Running {
    /// The expired peers of an endpoint go: whether there are some.
    fn expire_port(&mut self, alloc: Global, at: EpId) -> Result<bool, NoMemory>
        ensures rule { OnOk result (AtPort at IsPortExpiry self.old self.new) }
        ensures untouched { IfOk result (λ touched. touched ≡ false → self.new ≡ self.old) }
    {
        let _kept = self.state.ports.get().as_slice();
        if !self.state.has_expired(at) {
            return Ok(false);
        }
        let Some(port) = self.state.ports.get().find(at) else {
            return Ok(false);
        };
        let mut port = port.clone()?;
        self.state.expire(&mut port.peers);
        self.put_port(alloc, port)?;
        Ok(true)
    }

    /// The expired peers of each endpoint go: whether there are some (RFC 7787, section 6.1.5). After `false` nothing
    /// was changed. No clause says that something was after `true`.
    ///
    /// # Errors
    ///
    /// Out of memory. No clause says what the `Running` is then.
    pub fn expire_ports(&mut self, alloc: Global) -> Result<bool, NoMemory>
        ensures rule { OnOk result (IsExpiry self.old self.new) }
        ensures untouched { IfOk result (λ touched. touched ≡ false → self.new ≡ self.old) }
    {
        let _kept = self.state.ports.get().as_slice();
        if !self.state.has_expired_peer() {
            return Ok(false);
        }
        let endpoints = self.state.ports.get().endpoints(alloc)?;
        let mut touched = false;
        for at in &endpoints {
            touched |= self.expire_port(alloc, *at)?;
        }
        Ok(touched)
    }

    /// Nodes are forgotten that are lost for 42,000 ms or more (RFC 7787, section 4.6).
    ///
    /// # Errors
    ///
    /// Out of memory. No clause says what the `Running` is then.
    pub fn forget(&mut self) -> Result<(), NoMemory>
        ensures { OnOk result (self.new ≡ forgetting self.old) }
    {
        let now = self.state.moment.get();
        if self.state.table.get().needs_forget(now) {
            self.state.table.edit()?.forget(now);
        }
        Ok(())
    }

    /// The network state hash is sent by multicast.
    fn send_state(&mut self, alloc: Global, at: EpId) -> Result<(), NoMemory>
        ensures { OnOk result (IsStateSending at self.old self.new) }
    {
        let tlv = encode(
            alloc,
            &Item::NetworkState {
                hash: self.state.net,
                subs: &[],
            },
        )?;
        let datagrams = pack(alloc, self.state.id, at, &[tlv])?;
        self.send(at, None, datagrams)
    }

    /// Trickle of an endpoint moves on: whether a Network State is to be sent.
    fn move_port<D: Draw>(
        &mut self,
        alloc: Global,
        mut port: Port,
        draw: &mut D,
    ) -> Result<bool, NoMemory>
        ensures ran { OnOk result (Ran (IsPortMoving port) (D.words draw.old) (D.words draw.new) self.old self.new) }
        ensures sends { IfOk result (λ sends. sends ≡ tick_sends self.old.state.moment port) }
        ensures moment { OnOk result (self.new.state.moment ≡ self.old.state.moment) }
    {
        let renewed = port.tick(self.state.moment.get(), draw);
        self.took_words(renewed.taken())?;
        self.put_port(alloc, port)?;
        Ok(renewed.sends)
    }

    /// What is due at an endpoint.
    fn tick_port<D: Draw>(&mut self, alloc: Global, at: EpId, draw: &mut D) -> Result<(), NoMemory>
        ensures { OnOk result (Ran (AtPort at IsPortTick) (D.words draw.old) (D.words draw.new) self.old self.new) }
    {
        undue_port();
        let ports = self.state.ports.get();
        let _kept = ports.as_slice();
        let Some(port) = ports.find(at) else {
            return Ok(());
        };
        if port.is_port_undue(self.state.moment.get()) {
            return Ok(());
        }
        let port = port.clone()?;
        if self.move_port(alloc, port, draw)? {
            self.send_state(alloc, at)?;
        }
        Ok(())
    }

    /// What is due at each endpoint.
    ///
    /// # Errors
    ///
    /// Out of memory. No clause says what the `Running` is then.
    pub fn tick_ports<D: Draw>(&mut self, alloc: Global, draw: &mut D) -> Result<(), NoMemory>
        ensures { OnOk result (Ran IsPortsTick (D.words draw.old) (D.words draw.new) self.old self.new) }
    {
        undue_port();
        let _kept = self.state.ports.get().as_slice();
        let now = self.state.moment.get();
        if self.state.are_ports_undue(now) {
            return Ok(());
        }
        let endpoints = self.state.ports.get().endpoints(alloc)?;
        for at in &endpoints {
            self.tick_port(alloc, *at, draw)?;
        }
        Ok(())
    }
}
