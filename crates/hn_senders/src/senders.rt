//! Those that send Router Advertisements in a play.

ghost use Rattle.std.specs.Prelude.{◌≡◌, ◌↔◌, ◌<◌, ◌≤◌, ◌^◌, [], length, position, IsTrue, IfOk, OnOk, Some};
ghost use Rattle.std.specs.List.{slice_get, slice_set};
ghost use Rattle.hn_senders.specs.declared.senders.Sending.{Sending as ASending};
ghost use Rattle.hn_senders.specs.Senders.{shape_of, is_sender_of, sends_at, sender_endpoints, with_sender, without_sender, without_senders};
ghost use Rattle.hn_radv.specs.Sender.{started_sender};

use hn_advert::Advert;
use hn_base::{EpId, Moment, Name, NoMemory, Sequence};
use hn_prefix::Prefix;
use hn_radv::Sender;
use std::alloc::Global;
use std::marker::Model;

/// What of an advertisement counts as changed: all but the lifetimes of its prefixes.
#[derive(Drop)]
pub struct Shape {
    pub managed: bool,
    pub other: bool,
    pub lifetime: u16,
    pub prefixes: Sequence<Prefix>,
}

/// An endpoint of a router that sends Router Advertisements: when it sends, and what it sent last.
#[derive(Drop)]
pub struct Sending {
    pub name: Name,
    pub endpoint: EpId,
    pub sender: Sender,
    /// `None` where it has sent nothing.
    pub shape: Option<Shape>,
}

/// All that send Router Advertisements, in ascending order of their endpoints. Contracts see the list.
#[derive(Drop)]
pub struct Senders {
    items: Vec<Sending>,
}

impl Model for Senders {
    ghost use Rattle.std.specs.Prelude.{List};
    ghost use Rattle.hn_senders.specs.declared.senders.Sending.{Sending};
    ghost use Rattle.hn_senders.specs.Senders.{AreInOrder};

    ghost Value = { List Sending };

    ghost view = { λ s. s.items.items };

    ghost invariant = { λ s. AreInOrder s.items.items };
}

impl Shape {
    /// The shape of an advertisement.
    pub fn of(alloc: Global, advert: &Advert) -> Result<Shape, NoMemory>
        ensures { IfOk result (λ shape. shape ≡ shape_of advert.now) }
    {
        let mut prefixes = Sequence::new(alloc);
        for info in advert.infos.as_slice() {
            prefixes.push(info.prefix)?;
        }
        Ok(Shape {
            managed: advert.managed,
            other: advert.other,
            lifetime: advert.lifetime,
            prefixes,
        })
    }

    /// Whether it is this one.
    fn is(&self, other: &Shape) -> bool
        ensures { IsTrue result ↔ (self.now ≡ other.now) }
    {
        self.managed == other.managed
            && self.other == other.other
            && self.lifetime == other.lifetime
            && self.prefixes.as_slice() == other.prefixes.as_slice()
    }
}

impl Sending {
    /// Whether it sent this shape last. Never allocates.
    pub fn sent_last(&self, shape: &Shape) -> bool
        ensures { IsTrue result ↔ (self.now.shape ≡ Some shape.now) }
    {
        match &self.shape {
            Some(last) => last.is(shape),
            None => false,
        }
    }
}

/// Whether it is one of the router of a name.
fn is_sender_of(sending: &Sending, name: &Name) -> bool
    ensures { result ≡ is_sender_of name.now sending.now }
{
    sending.name.as_str() == name.as_str()
}

/// Whether it is that of an endpoint of the router of a name.
fn sends_at(sending: &Sending, name: &Name, endpoint: EpId) -> bool
    ensures { result ≡ sends_at name.now endpoint sending.now }
{
    is_sender_of(sending, name) && sending.endpoint == endpoint
}

impl Senders {
    /// None. Never allocates.
    pub fn new(alloc: Global) -> Senders
        ensures { result ≡ [] }
    {
        Senders {
            items: Vec::new(alloc),
        }
    }

    /// The endpoints of the router of a name that send, in ascending order.
    pub fn endpoints_of(&self, alloc: Global, name: &Name) -> Result<Vec<EpId>, NoMemory>
        ensures { IfOk result (λ endpoints. endpoints.items ≡ sender_endpoints name.now self.now) }
    {
        let mut endpoints = Vec::new(alloc);
        for sending in &self.items {
            if is_sender_of(sending, name) {
                endpoints.push(sending.endpoint)?;
            }
        }
        Ok(endpoints)
    }

    /// The place of that of an endpoint of the router of a name. Never allocates.
    pub fn place_of(&self, name: &Name, endpoint: EpId) -> Option<usize>
        ensures { result ≡ position (sends_at name.now endpoint) self.now }
    {
        self.items
            .iter()
            .position(|sending| sends_at(sending, name, endpoint))
    }

    /// That at a place. Never allocates.
    pub fn at(&self, place: usize) -> &Sending
        requires { place < length self.now }
        ensures { slice_get self.now place ≡ Some result.now }
    {
        &self.items[place]
    }

    /// Sets when that at a place sends. Never allocates.
    pub fn set(&mut self, place: usize, sender: Sender)
        requires { place < length self.old }
        ensures { (sending : ASending) → slice_get self.old place ≡ Some sending
            → self.new ≡ slice_set self.old place (record sending { sender = sender }) }
    {
        self.items[place].sender = sender;
    }

    /// That at a place sent a shape; sets when it sends again. Never allocates.
    pub fn sent(&mut self, place: usize, sender: Sender, shape: Shape)
        requires { place < length self.old }
        ensures { (sending : ASending) → slice_get self.old place ≡ Some sending
            → self.new ≡ slice_set self.old place (record sending { sender = sender; shape = Some shape }) }
    {
        let sending = &mut self.items[place];
        sending.sender = sender;
        sending.shape = Some(shape);
    }

    /// Begins one on an endpoint of the router of a name, anew where there is one.
    ///
    /// # Errors
    ///
    /// Out of memory.
    pub fn start(&mut self, name: Name, endpoint: EpId, now: Moment) -> Result<(), NoMemory>
        requires { now ≤ 2 ^ 48 }
        ensures { OnOk result (self.new ≡ with_sender
            (record { name = name; endpoint = endpoint; sender = started_sender now; shape = None }) self.old) }
    {
        self.end(&name, endpoint);
        let place = self.items.partition_point(|s| s.endpoint <= endpoint);
        let sending = Sending {
            name,
            endpoint,
            sender: Sender::start(now),
            shape: None,
        };
        Ok(self.items.insert(place, sending)?)
    }

    /// Ends that of an endpoint of the router of a name. Never allocates.
    pub fn end(&mut self, name: &Name, endpoint: EpId)
        ensures { self.new ≡ without_sender name.now endpoint self.old }
    {
        self.items
            .retain(|sending| !sends_at(sending, name, endpoint));
    }

    /// Ends those of the router of a name. Never allocates.
    pub fn end_all(&mut self, name: &Name)
        ensures { self.new ≡ without_senders name.now self.old }
    {
        self.items.retain(|sending| !is_sender_of(sending, name));
    }
}
