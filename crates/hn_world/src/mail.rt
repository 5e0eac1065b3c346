//! The copies of what a router sends.

ghost use Rattle.std.specs.Prelude.{◌≡◌, ◌++◌, ◌∷◌, [], ◌<◌, ◌+◌, ◌≤◌, ◌^◌, true, All, length, Option, None, Some, IfOk, IfSome, IsTrue, OnOk, filter, map};
ghost use Rattle.hn_own.specs.Ports.{ArePorts};
ghost use Rattle.hn_world.specs.Mail.{address_of_target, on_link_at, on_link, is_same, has_address, gets, copy_for, copies_on, copies_of_send, copies_of};

use crate::copies::{MailCopy, Target};
use crate::member::Member;
use hn_base::{Addr, Bytes, EpId, NoMemory, Shared};
use hn_rules::Outgoing;
use std::alloc::Global;

/// The port of HNCP (RFC 7788, section 3).
pub const HNCP_PORT: u16 = 8231;

impl Target {
    /// The address of the endpoint.
    pub(crate) fn address(&self) -> Addr
        ensures { result ≡ address_of_target self.now }
    {
        let Target {
            place,
            endpoint: EpId(endpoint),
        } = *self;
        Addr {
            ip: (0xfe80 << 112) + ((place as u128 + 1) << 32) + u128::from(endpoint),
            port: HNCP_PORT,
        }
    }

    /// Whether the endpoint, which is on the link of a sender, gets what it sent.
    fn gets(&self, sender: &Target, to: Option<Addr>) -> bool
        ensures { result ≡ gets sender.now to self.now }
    {
        match to {
            None => !(sender.place == self.place && sender.endpoint == self.endpoint),
            Some(to) => {
                let address = self.address();
                address.ip == to.ip && address.port == to.port
            }
        }
    }

    /// The copy of a datagram for the endpoint, with the bytes that all copies of it share.
    fn copy(
        &self,
        sender: &Target,
        to: Option<Addr>,
        bytes: &Shared<Bytes>,
    ) -> Result<MailCopy, NoMemory>
        ensures { IfOk result (λ copy. copy ≡ copy_for sender.now to bytes.now self.now) }
    {
        Ok(MailCopy {
            to: *self,
            from: sender.address(),
            multicast: to.is_none(),
            waiting: true,
            bytes: bytes.clone()?,
        })
    }
}

/// Adds the copy of a datagram for an endpoint on the link of the sender, if it gets what was sent.
fn add_copy(
    copies: &mut Vec<MailCopy>,
    at: &Target,
    sender: &Target,
    to: Option<Addr>,
    bytes: &Shared<Bytes>,
) -> Result<(), NoMemory>
    requires { All (λ c. c.waiting ≡ true) copies.old.items }
    ensures copies { OnOk result (copies.new.items ≡ copies.old.items ++ map (copy_for sender.now to bytes.now) (filter (gets sender.now to) (at.now ∷ []))) }
    ensures waiting { OnOk result (All (λ c. c.waiting ≡ true) copies.new.items) }
{
    if at.gets(sender, to) {
        copies.push(at.copy(sender, to, bytes)?)?;
    }
    Ok(())
}

/// Adds the copies of a datagram for those endpoints of a router that are attached to a link and get what a sender on it
/// sent.
fn add_on_link(
    copies: &mut Vec<MailCopy>,
    link: usize,
    place: usize,
    member: &Member,
    sender: &Target,
    to: Option<Addr>,
    bytes: &Shared<Bytes>,
) -> Result<(), NoMemory>
    requires { All (λ c. c.waiting ≡ true) copies.old.items }
    ensures copies { OnOk result (copies.new.items ≡ copies.old.items ++ map (copy_for sender.now to bytes.now) (filter (gets sender.now to) (on_link_at link place member.now))) }
    ensures waiting { OnOk result (All (λ c. c.waiting ≡ true) copies.new.items) }
{
    if !member.has_link(link) {
        return Ok(());
    }
    for port in member.router.ports() {
        let target = Target {
            place,
            endpoint: port.id,
        };
        if member.is_on(link, port.id) {
            add_copy(copies, &target, sender, to, bytes)?;
        }
    }
    Ok(())
}

/// The place of the router whose endpoints have addresses as this one, where there are so many routers.
fn place_of(to: &Addr, count: usize) -> Option<usize>
    ensures there { IfSome result (λ place. place < count) }
    ensures place { (at : Target) → at.place < count → at.endpoint.0 < 2 ^ 32 → IsTrue (has_address to.now at) → result ≡ Some at.place }
{
    let ordinal = (to.ip >> 32).checked_sub(0xfe80 << 80)?;
    if ordinal == 0 || ordinal > count as u128 {
        return None;
    }
    Some((ordinal - 1) as usize)
}

/// Adds the copies of a datagram for the endpoints that are attached to a link and get what a sender on it sent by multicast.
fn add_for_others(
    copies: &mut Vec<MailCopy>,
    link: usize,
    members: &[Member],
    sender: &Target,
    bytes: &Shared<Bytes>,
) -> Result<(), NoMemory>
    requires { All (λ c. c.waiting ≡ true) copies.old.items }
    ensures copies { OnOk result (copies.new.items ≡ copies.old.items ++ map (copy_for sender.now None bytes.now) (filter (gets sender.now None) (on_link link 0 members.now))) }
    ensures waiting { OnOk result (All (λ c. c.waiting ≡ true) copies.new.items) }
{
    for (place, member) in members.iter().enumerate() {
        add_on_link(copies, link, place, member, sender, None, bytes)?;
    }
    Ok(())
}

/// Adds the copy of a datagram for the endpoint with an address, if it is attached to a link.
fn add_for_address(
    copies: &mut Vec<MailCopy>,
    link: usize,
    members: &[Member],
    sender: &Target,
    to: Addr,
    bytes: &Shared<Bytes>,
) -> Result<(), NoMemory>
    requires ports { All (λ m. ArePorts m.router.ports) members.now }
    requires waiting { All (λ c. c.waiting ≡ true) copies.old.items }
    ensures copies { OnOk result (copies.new.items ≡ copies.old.items ++ map (copy_for sender.now (Some to) bytes.now) (filter (gets sender.now (Some to)) (on_link link 0 members.now))) }
    ensures waiting { OnOk result (All (λ c. c.waiting ≡ true) copies.new.items) }
{
    let Some(place) = place_of(&to, members.len()) else {
        return Ok(());
    };
    add_on_link(
        copies,
        link,
        place,
        &members[place],
        sender,
        Some(to),
        bytes,
    )
}

/// Adds the copies of a datagram that the router at a place sends.
fn add_copies_of_send(
    alloc: Global,
    copies: &mut Vec<MailCopy>,
    members: &[Member],
    place: usize,
    member: &Member,
    send: &Outgoing,
) -> Result<(), NoMemory>
    requires ports { All (λ m. ArePorts m.router.ports) members.now }
    requires waiting { All (λ c. c.waiting ≡ true) copies.old.items }
    ensures copies { OnOk result (copies.new.items ≡ copies.old.items ++ copies_of_send members.now place member.now send.now) }
    ensures waiting { OnOk result (All (λ c. c.waiting ≡ true) copies.new.items) }
{
    let Some(link) = member.link_of(send.endpoint) else {
        return Ok(());
    };
    let sender = Target {
        place,
        endpoint: send.endpoint,
    };
    let bytes = Shared::new(alloc, Bytes::copy_of(alloc, send.bytes.as_slice())?)?;
    match send.to {
        None => add_for_others(copies, link, members, &sender, &bytes),
        Some(to) => add_for_address(copies, link, members, &sender, to, &bytes),
    }
}

/// The copies of all that the router at a place sends.
pub(crate) fn copies_of(
    alloc: Global,
    members: &[Member],
    place: usize,
    member: &Member,
    sends: &[Outgoing],
) -> Result<Vec<MailCopy>, NoMemory>
    requires { All (λ m. ArePorts m.router.ports) members.now }
    ensures copies { IfOk result (λ copies. copies.items ≡ copies_of members.now place member.now sends.now) }
    ensures waiting { IfOk result (λ copies. All (λ c. c.waiting ≡ true) copies.items) }
{
    let mut copies = Vec::new(alloc);
    for send in sends {
        add_copies_of_send(alloc, &mut copies, members, place, member, send)?;
    }
    Ok(copies)
}
