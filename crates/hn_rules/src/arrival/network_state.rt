ghost use Rattle.std.specs.Prelude.{◌≡◌, Bool, OnOk};
ghost use Rattle.hn_rules.specs.Rules.{AtPort};
ghost use Rattle.hn_rules.specs.NetworkState.{compared, network_state};

use crate::running::{Origin, Running};
use hn_base::NoMemory;
use hn_dncp::Port;
use hn_hash::same_hash;
use std::alloc::Global;

impl Running {
    /// The network state hash of a neighbour is the local one, or the endpoint asks.
    fn compare(&mut self, alloc: Global, same: bool, mut port: Port) -> Result<(), NoMemory>
        ensures { OnOk result (self.new ≡ compared same port self.old) }
    {
        let asks = port.hash(same, self.sender, self.state.moment.get());
        self.put_port(alloc, port)?;
        if asks {
            self.request_state(alloc)?;
        }
        Ok(())
    }

    /// A Network State (RFC 7787, section 7.2.2).
    pub(crate) fn network_state(
        &mut self,
        alloc: Global,
        from: &Origin,
        hash: [u8; 8],
    ) -> Result<(), NoMemory>
        ensures { OnOk result (AtPort from.now.endpoint (λ port b a. a ≡ network_state hash port b) self.old self.new) }
    {
        let ports = self.state.ports.get();
        let _kept = ports.as_slice();
        let Some(port) = ports.find(from.endpoint) else {
            return Ok(());
        };
        let same = same_hash(hash, self.state.net);
        if !same && !port.may_ask(self.state.moment.get()) {
            return Ok(());
        }
        let port = port.clone()?;
        self.compare(alloc, same, port)
    }
}
