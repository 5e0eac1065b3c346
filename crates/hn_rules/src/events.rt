//! Events beside arrivals and ticks: endpoints that are attached and detached, capabilities, the private link, own
//! addresses, a restart.

ghost use Rattle.std.specs.Prelude.{◌≡◌, ◌<◌, true, false, nat_eq, length, OnOk};
ghost use Rattle.std.specs.Option.{option_eq};
ghost use Rattle.hn_own.specs.Addresses.{may_address};
ghost use Rattle.hn_own.specs.Ports.{is_attached, endpoints_of};
ghost use Rattle.hn_base.specs.Rules.{Each};
ghost use Rattle.hn_rules.specs.Rules.{AtPort, Ran};
ghost use Rattle.hn_rules.specs.Events.{IsAttaching, detaching, setting_caps, setting_private, setting_addresses};
ghost use Rattle.hn_rules.specs.Events.{IsPortRestart, emptied, IsRestarting};

use crate::running::Running;
use crate::state::HeldPairs;
use hn_base::{Caps, EpId, LinkLength, NoMemory, Shared};
use hn_dncp::Port;
use hn_io::Draw;
use hn_own::{Addresses, addresses_stay};
use hn_store::Table;
use std::alloc::Global;

/// Whether two private links are of one length, or there are none.
fn are_same(a: &Option<LinkLength>, b: &Option<LinkLength>) -> bool
    ensures { result ≡ option_eq nat_eq a.now b.now }
{
    match (a, b) {
        (None, None) => true,
        (Some(a), Some(b)) => a.get() == b.get(),
        _ => false,
    }
}

impl Running {
    /// An endpoint is attached. Its number is not 0, it is not attached yet, and fewer than 16 are.
    ///
    /// # Errors
    ///
    /// Out of memory. No clause says what the `Running` is then.
    pub fn add_port<D: Draw>(
        &mut self,
        alloc: Global,
        at: EpId,
        draw: &mut D,
    ) -> Result<(), NoMemory>
        requires numbered { 0 < at.0 }
        requires unknown { is_attached at self.old.state.ports ≡ false }
        requires room { length self.old.state.ports < 16 }
        ensures { OnOk result (Ran (IsAttaching at) (D.words draw.old) (D.words draw.new) self.old self.new) }
    {
        let word = self.take(draw)?;
        let port = Port::start(alloc, at, self.state.moment.get(), word);
        self.state.ports.edit()?.insert(port)
    }

    /// An endpoint is detached, with its peers and its addresses.
    ///
    /// # Errors
    ///
    /// Out of memory. No clause says what the `Running` is then.
    pub fn remove_port(&mut self, at: EpId) -> Result<(), NoMemory>
        ensures { OnOk result (self.new ≡ detaching at self.old) }
    {
        self.state.ports.edit()?.remove(at);
        self.state.addresses.edit()?.remove(at);
        Ok(())
    }

    /// The router gets these capabilities. Never allocates.
    pub fn put_caps(&mut self, caps: Caps)
        ensures { self.new ≡ setting_caps caps self.old }
    {
        self.state.caps = caps;
    }

    /// The private link is set or ended. Where its length changes, what is held for it is destroyed.
    ///
    /// # Errors
    ///
    /// Out of memory. No clause says what the `Running` is then.
    pub fn put_private(
        &mut self,
        alloc: Global,
        private: Option<LinkLength>,
    ) -> Result<(), NoMemory>
        ensures { OnOk result (self.new ≡ setting_private private self.old) }
    {
        if are_same(&private, &self.state.private) {
            return Ok(());
        }
        let held = self.state.held.get().without_private(alloc)?;
        self.state.held = Shared::new(alloc, held)?;
        self.state.private = private;
        Ok(())
    }

    /// The router gets these addresses, in strictly ascending order, at most 64, each of an attached endpoint (RFC
    /// 7788, section 10.4).
    ///
    /// # Errors
    ///
    /// Out of memory. No clause says what the `Running` is then.
    pub fn put_addresses(&mut self, alloc: Global, list: &[(EpId, u128)]) -> Result<(), NoMemory>
        requires { may_address list.now self.old.state.ports ≡ true }
        ensures { OnOk result (self.new ≡ setting_addresses list.now self.old) }
    {
        addresses_stay();
        self.state.addresses = Shared::new(alloc, Addresses::of(alloc, list)?)?;
        Ok(())
    }

    /// An endpoint begins anew.
    fn restart_port<D: Draw>(
        &mut self,
        alloc: Global,
        at: EpId,
        draw: &mut D,
    ) -> Result<(), NoMemory>
        ensures { OnOk result (Ran (AtPort at IsPortRestart) (D.words draw.old) (D.words draw.new) self.old self.new) }
    {
        if !self.state.ports.get().has(at) {
            return Ok(());
        }
        let word = self.take(draw)?;
        let port = Port::start(alloc, at, self.state.moment.get(), word);
        self.put_port(alloc, port)
    }

    /// The nodes that were held, the assignments, the backoffs, the claims and the addresses are forgotten.
    fn empty(&mut self, alloc: Global) -> Result<(), NoMemory>
        ensures { OnOk result (self.new ≡ emptied self.old) }
    {
        let table = self.state.table.get();
        let _kept = table.entries();
        let empty = Table::sized(alloc, table.limit());
        self.state.table = Shared::new(alloc, empty)?;
        self.state.held = Shared::new(alloc, HeldPairs::new(alloc))?;
        self.state.claimed = false;
        self.state.addresses = Shared::new(alloc, Addresses::new(alloc))?;
        Ok(())
    }

    /// The endpoints begin anew, in ascending order.
    fn restart_ports<D: Draw>(&mut self, alloc: Global, draw: &mut D) -> Result<(), NoMemory>
        ensures { OnOk result (Ran
            (λ before after. Each (λ at. AtPort at IsPortRestart) (endpoints_of before.state.ports) before after)
            (D.words draw.old) (D.words draw.new) self.old self.new) }
    {
        let endpoints = self.state.ports.get().endpoints(alloc)?;
        for at in &endpoints {
            self.restart_port(alloc, *at, draw)?;
        }
        Ok(())
    }

    /// A restart.
    ///
    /// # Errors
    ///
    /// Out of memory. No clause says what the `Running` is then.
    pub fn restart<D: Draw>(&mut self, alloc: Global, draw: &mut D) -> Result<(), NoMemory>
        ensures { OnOk result (Ran IsRestarting (D.words draw.old) (D.words draw.new) self.old self.new) }
    {
        self.empty(alloc)?;
        self.restart_ports(alloc, draw)?;
        self.publish(alloc, 1)
    }
}
