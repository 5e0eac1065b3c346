ghost use Rattle.std.specs.Prelude.{◌≡◌, IfOk};

use crate::present::Present;
use hn_assign::KeptIndex;
use hn_base::{Caps, LinkLength, Moment, NoMemory, NodeId, NodeIds, Shared};
use hn_own::{Addresses, OwnData, OwnPrefixes, Ports};
use hn_store::Table;

/// The assignments and backoffs of a router, with the index that the assignment subroutine keeps.
pub type HeldPairs = hn_own::HeldPairs<KeptIndex>;

/// The fields of a router.
#[derive(Drop)]
pub struct State {
    /// Its identifier.
    pub id: NodeId,
    /// Its sequence number.
    pub number: u32,
    /// The moment of its last event.
    pub moment: Present,
    /// Its capabilities.
    pub caps: Caps,
    /// The items that it published last, with the moment and their node data.
    pub own: Shared<OwnData>,
    /// The delegated prefixes that it has of its own.
    pub delegated: Shared<OwnPrefixes>,
    /// Its assignments and backoffs.
    pub held: Shared<HeldPairs>,
    /// Whether its identifier was claimed since it began or took it.
    pub claimed: bool,
    /// The length of the prefixes of its private link, if it has one.
    pub private: Option<LinkLength>,
    /// Its endpoints.
    pub ports: Shared<Ports>,
    /// Its addresses.
    pub addresses: Shared<Addresses>,
    /// The other nodes.
    pub table: Shared<Table>,
    /// The nodes that were reachable at the last refresh.
    pub reach: Shared<NodeIds>,
    /// The network state hash of the last refresh.
    pub net: [u8; 8],
    /// Where this is after the router's moment, each tick before it does nothing. No rule reads or changes it.
    pub due: Moment,
}

impl State {
    /// What it publishes and holds, with one owner more.
    fn share_own(
        &self,
    ) -> Result<(Shared<OwnData>, Shared<OwnPrefixes>, Shared<HeldPairs>), NoMemory>
        ensures own { IfOk result (λ parts. parts.0 ≡ self.now.own) }
        ensures delegated { IfOk result (λ parts. parts.1 ≡ self.now.delegated) }
        ensures held { IfOk result (λ parts. parts.2 ≡ self.now.held) }
    {
        let own = self.own.clone()?;
        let delegated = self.delegated.clone()?;
        let held = self.held.clone()?;
        Ok((own, delegated, held))
    }

    /// Its endpoints and addresses, with one owner more.
    fn share_ports(&self) -> Result<(Shared<Ports>, Shared<Addresses>), NoMemory>
        ensures ports { IfOk result (λ parts. parts.0 ≡ self.now.ports) }
        ensures addresses { IfOk result (λ parts. parts.1 ≡ self.now.addresses) }
    {
        let ports = self.ports.clone()?;
        let addresses = self.addresses.clone()?;
        Ok((ports, addresses))
    }

    /// What it knows of other nodes, with one owner more.
    fn share_nodes(&self) -> Result<(Shared<Table>, Shared<NodeIds>), NoMemory>
        ensures table { IfOk result (λ parts. parts.0 ≡ self.now.table) }
        ensures reach { IfOk result (λ parts. parts.1 ≡ self.now.reach) }
    {
        let table = self.table.clone()?;
        let reach = self.reach.clone()?;
        Ok((table, reach))
    }

    /// This state. It shares the memory of its large parts.
    pub(crate) fn copy(&self) -> Result<State, NoMemory>
        ensures { IfOk result (λ copy. copy ≡ self.now) }
    {
        let (own, delegated, held) = self.share_own()?;
        let (ports, addresses) = self.share_ports()?;
        let (table, reach) = self.share_nodes()?;
        Ok(State {
            id: self.id,
            number: self.number,
            moment: self.moment,
            caps: self.caps,
            own,
            delegated,
            held,
            claimed: self.claimed,
            private: self.private,
            ports,
            addresses,
            table,
            reach,
            net: self.net,
            due: self.due,
        })
    }
}
