ghost use Rattle.std.specs.Prelude.{◌≡◌, ◌≢◌, ◌<◌, ◌≤◌, ◌^◌, ◌++◌, [], false, nat_lt, length, position, IfOk, OnOk, OnErr, option_copied};
ghost use Rattle.hn_own.specs.Ports.{ArePorts, is_port, port_at, is_attached, put_port, heard_at, attached, detached, endpoints_of};

use hn_base::{EpId, Exact, Moment, NoMemory, NodeId};
use hn_dncp::Port;
use std::alloc::{AllocError, Global};
use std::marker::Model;

/// The most endpoints of a router.
pub const MOST_ENDPOINTS: usize = 16;

/// The endpoints of a router, in strictly ascending order of their numbers, at most 16. Contracts see the list.
#[derive(Drop)]
pub struct Ports {
    items: Vec<Port>,
}

impl Model for Ports {
    ghost use Rattle.std.specs.Prelude.{List};
    ghost use Rattle.hn_dncp.specs.declared.port.Port.{Port};
    ghost use Rattle.hn_own.specs.Ports.{ArePorts};

    ghost Value = { List Port };

    ghost view = { λ p. p.items.items };

    ghost invariant = { λ p. ArePorts p.items.items };
}

impl Clone for Ports {
    ghost is_clone = { λ ports copy. copy ≡ ports };

    /// # Errors
    ///
    /// Out of memory, as `AllocError`.
    fn clone(&self) -> Result<Ports, AllocError> {
        Ok(Ports {
            items: self.items.clone()?,
        })
    }
}

impl Exact for Ports {
    ghost exact = { λ ports copy same. same };
}

/// The place of an endpoint.
fn place_of(ports: &[Port], at: EpId) -> Option<usize>
    ensures { result ≡ position (is_port at) ports.now }
{
    ports.iter().position(|port| port.id == at)
}

/// Adds copies of endpoints.
fn add_copies(items: &mut Vec<Port>, ports: &[Port]) -> Result<(), NoMemory>
    ensures { OnOk result (items.new.items ≡ items.old.items ++ ports.now) }
{
    for port in ports {
        items.push(port.clone()?)?;
    }
    Ok(())
}

/// The number of an endpoint has 4 bytes.
fn number_fits(at: EpId)
    ensures { at.0 < 2 ^ 32 }
{}

impl Ports {
    /// No endpoints. Never allocates.
    pub fn new(alloc: Global) -> Ports
        ensures { result ≡ [] }
    {
        Ports {
            items: Vec::new(alloc),
        }
    }

    /// The endpoints in order. Never allocates.
    pub fn as_slice(&self) -> &[Port]
        ensures ports { result.now ≡ self.now }
        ensures kept { ArePorts self.now }
    {
        self.items.as_slice()
    }

    /// Whether there is room for one more: they are fewer than 16. Never allocates.
    pub fn has_room(&self) -> bool
        ensures { result ≡ nat_lt (length self.now) 16 }
    {
        self.items.len() < MOST_ENDPOINTS
    }

    /// The numbers of the endpoints in order.
    ///
    /// # Errors
    ///
    /// Out of memory.
    pub fn endpoints(&self, alloc: Global) -> Result<Vec<EpId>, NoMemory>
        ensures { IfOk result (λ endpoints. endpoints.items ≡ endpoints_of self.now) }
    {
        Ok(self.items.iter().map(|port| port.id).collect(alloc)?)
    }

    /// The endpoint of a number; `None` if and only if it is not attached. Never allocates.
    pub fn find(&self, at: EpId) -> Option<&Port>
        ensures { option_copied result ≡ port_at at self.now }
    {
        self.items.iter().find(|port| port.id == at)
    }

    /// Whether an endpoint is attached. Never allocates.
    pub fn has(&self, at: EpId) -> bool
        ensures { result ≡ is_attached at self.now }
    {
        self.find(at).is_some()
    }

    /// Puts an endpoint in place of the one with its number, if there is one. Never allocates.
    pub fn put(&mut self, port: Port)
        ensures { self.new ≡ put_port port self.old }
    {
        if let Some(place) = place_of(&self.items, port.id) {
            self.items[place] = port;
        }
    }

    /// The endpoint of a number, if it is attached, hears the local network state hash from a sender: Trickle counts a
    /// consistent message, and the contact of the sender is renewed, if it is a peer (RFC 7787, section 4.3). Never
    /// allocates.
    pub fn hear(&mut self, at: EpId, sender: (NodeId, EpId), now: Moment)
        ensures { self.new ≡ heard_at at sender now self.old }
    {
        if let Some(place) = place_of(&self.items, at) {
            let _asks = self.items[place].hash(true, Some(sender), now);
        }
    }

    /// The endpoints, with this one in place of the one with its number, if there is one. The others are copied.
    ///
    /// # Errors
    ///
    /// Out of memory.
    pub fn with(&self, alloc: Global, port: Port) -> Result<Ports, NoMemory>
        ensures { IfOk result (λ ports. ports ≡ put_port port self.now) }
    {
        let Some(place) = place_of(&self.items, port.id) else {
            return Ok(self.clone()?);
        };
        let mut items = Vec::with_capacity(alloc, self.items.len())?;
        add_copies(&mut items, &self.items[..place])?;
        items.push(port)?;
        add_copies(&mut items, &self.items[place + 1..])?;
        Ok(Ports { items })
    }

    /// Adds an endpoint at its place in the order. Its number is not 0, none is attached with it, and fewer than 16 are
    /// attached.
    ///
    /// # Errors
    ///
    /// Out of memory; the endpoints are as before then.
    pub fn insert(&mut self, port: Port) -> Result<(), NoMemory>
        requires numbered { 0 < port.id.0 }
        requires unknown { is_attached port.id self.old ≡ false }
        requires room { length self.old < 16 }
        ensures ok { OnOk result (self.new ≡ attached port self.old) }
        ensures err { OnErr result (self.new ≡ self.old) }
    {
        number_fits(port.id);
        let place = self.items.partition_point(|p| p.id < port.id);
        Ok(self.items.insert(place, port)?)
    }

    /// Takes an endpoint out. Never allocates.
    pub fn remove(&mut self, at: EpId)
        ensures { self.new ≡ detached at self.old }
    {
        self.items.retain(|port| port.id != at);
    }
}
