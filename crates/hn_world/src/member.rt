ghost use Rattle.std.specs.Prelude.{◌≡◌, ◌<◌, ◌==◌, [], ◌++◌, ◌∷◌, filter, length, position, not, IfOk, Some, option_copied, find, ◌≤◌, ◌^◌, OnOk, OnErr};
ghost use Rattle.std.specs.List.{slice_get, slice_set, list_any};
ghost use Rattle.std.specs.Str.{bytes_eq};
ghost use Rattle.hn_base.specs.Name.{name_text};
ghost use Rattle.hn_router.specs.Act.{Tick, Happened};
ghost use Rattle.hn_rules.specs.Passing.{after_passing};
ghost use Rattle.hn_rules.specs.Done.{nothing};
ghost use Rattle.hn_rules.specs.Router.{IsRouter};
ghost use Rattle.hn_rules.specs.Undue.{at_moment};
ghost use Rattle.hn_world.specs.declared.member.Member.{Member};
ghost use Rattle.hn_world.specs.Names.{is_named, is_of, link_of, is_on, NamesDiffer};
ghost use Rattle.hn_world.specs.Beside.{with_beside};
ghost use Rattle.hn_world.specs.Step.{attached_to, detached_from, stopped};

use crate::routed::Beside;
use hn_base::{EpId, Moment, Name, NoMemory, Sequence};
use hn_router::{Plan, Router};
use hn_rules::{Done, Passing};
use std::alloc::Global;
use std::marker::Model;

/// An endpoint of a router, and the link to which it is attached, by its place in order of definition.
#[derive(Clone, Copy)]
pub struct Attachment {
    pub endpoint: EpId,
    pub link: usize,
}

/// A router of the world, under its name.
#[derive(Drop)]
pub struct Member {
    pub name: Name,
    pub running: bool,
    pub router: Router,
    pub attachments: Sequence<Attachment>,
}

/// The routers of a world, in order of definition.
#[derive(Drop)]
pub struct Members {
    pub(crate) items: Vec<Member>,
}

impl Model for Members {
    ghost use Rattle.std.specs.Prelude.{List};
    ghost use Rattle.hn_world.specs.declared.member.Member.{Member};

    ghost Value = { List Member };

    ghost view = { λ m. m.items.items };
}

/// Whether two names are the same. Those of a home mostly differ near their ends, so the last bytes come first.
fn are_same(a: &Name, b: &Name) -> bool
    ensures { result ≡ bytes_eq (name_text a.now) (name_text b.now) }
{
    if a.len != b.len {
        return false;
    }
    let mut left = usize::from(a.len);
    while left > 0 {
        left -= 1;
        if a.bytes[left] != b.bytes[left] {
            return false;
        }
    }
    true
}

/// Whether a router has that name.
fn is_named(member: &Member, name: &Name) -> bool
    ensures { result ≡ is_named (name_text name.now) member.now }
{
    are_same(&member.name, name)
}

impl Member {
    /// The link to which an endpoint is attached, by its place in order of definition; `None` if and only if it is
    /// attached to none. Never allocates.
    pub fn link_of(&self, endpoint: EpId) -> Option<usize>
        ensures { result ≡ link_of endpoint self.now }
    {
        self.attachments
            .as_slice()
            .iter()
            .find(|a| a.endpoint == endpoint)
            .map(|a| a.link)
    }

    /// Whether an endpoint is attached to that link. Never allocates.
    pub(crate) fn is_on(&self, link: usize, endpoint: EpId) -> bool
        ensures { result ≡ is_on link self.now endpoint }
    {
        match self.link_of(endpoint) {
            Some(other) => other == link,
            None => false,
        }
    }

    /// Whether some endpoint is attached to that link. Never allocates.
    pub(crate) fn has_link(&self, link: usize) -> bool
        ensures { result ≡ list_any (λ a. a.link == link) self.now.attachments }
    {
        self.attachments.as_slice().iter().any(|a| a.link == link)
    }

    /// The attachments, and a new one.
    pub(crate) fn attachments_with(
        &self,
        alloc: Global,
        endpoint: EpId,
        link: usize,
    ) -> Result<Sequence<Attachment>, NoMemory>
        ensures { IfOk result (λ attachments. attachments ≡ (attached_to link endpoint self.now).attachments) }
    {
        let mut attachments = self.attachments.copy(alloc)?;
        attachments.push(Attachment { endpoint, link })?;
        Ok(attachments)
    }

    /// The attachments without that of an endpoint.
    pub(crate) fn attachments_without(
        &self,
        alloc: Global,
        endpoint: EpId,
    ) -> Result<Sequence<Attachment>, NoMemory>
        ensures { IfOk result (λ attachments. attachments ≡ (detached_from endpoint self.now).attachments) }
    {
        let mut attachments = Sequence::new(alloc);
        for a in self.attachments.as_slice() {
            if a.endpoint != endpoint {
                attachments.push(*a)?;
            }
        }
        Ok(attachments)
    }
}

impl Members {
    /// No routers. Never allocates.
    pub(crate) fn new(alloc: Global) -> Members
        ensures { result ≡ [] }
    {
        Members {
            items: Vec::new(alloc),
        }
    }

    /// The routers. Never allocates.
    pub(crate) fn as_slice(&self) -> &[Member]
        ensures { result.now ≡ self.now }
    {
        self.items.as_slice()
    }

    /// The place of the router of a name. Never allocates.
    pub(crate) fn place_of(&self, name: &Name) -> Option<usize>
        ensures { result ≡ position (is_named (name_text name.now)) self.now }
    {
        self.items.iter().position(|member| is_named(member, name))
    }

    /// The place of the router of a name. This place is asked first. Never allocates.
    pub(crate) fn place_near(&self, name: &Name, first: usize) -> Option<usize>
        requires { NamesDiffer self.now }
        ensures { result ≡ position (is_named (name_text name.now)) self.now }
    {
        match self.get(first) {
            Some(member) if is_named(member, name) => Some(first),
            _ => self.place_of(name),
        }
    }

    /// The router of a name. Never allocates.
    pub(crate) fn find(&self, name: &Name) -> Option<&Member>
        ensures { option_copied result ≡ find (is_named (name_text name.now)) self.now }
    {
        self.items.iter().find(|member| is_named(member, name))
    }

    /// The router at a place. Never allocates.
    pub(crate) fn get(&self, place: usize) -> Option<&Member>
        ensures { option_copied result ≡ slice_get self.now place }
    {
        self.items.get(place)
    }

    /// The router at a place. Never allocates.
    pub(crate) fn at(&self, place: usize) -> &Member
        requires { place < length self.now }
        ensures { slice_get self.now place ≡ Some result.now }
    {
        &self.items[place]
    }

    /// Does what the router at a place planned, and changes what is beside it. Never allocates.
    pub(crate) fn commit(&mut self, place: usize, plan: Plan, beside: Beside) -> Done
        requires { place < length self.old }
        ensures members { (m : Member) → slice_get self.old place ≡ Some m → self.new ≡ slice_set self.old place (with_beside beside (record m { router = plan.state })) }
        ensures done { result ≡ plan.done }
    {
        let member = &mut self.items[place];
        match beside {
            Beside::Nothing => {}
            Beside::Attachments(attachments) => member.attachments = attachments,
            Beside::Runs => member.running = true,
        }
        member.router.commit(plan)
    }

    /// The router at a place looks at its clock before something is due for it. Never allocates.
    pub(crate) fn pass(&mut self, place: usize, now: Moment)
        requires there { place < length self.old }
        requires past { (m : Member) → slice_get self.old place ≡ Some m → m.router.moment ≤ now }
        requires in_range { now ≤ 2 ^ 48 }
        requires undue { (m : Member) → slice_get self.old place ≡ Some m → now < m.router.due }
        ensures members { (m : Member) → slice_get self.old place ≡ Some m → self.new ≡ slice_set self.old place (record m { router = at_moment now m.router }) }
        ensures happened { (m : Member) → slice_get self.old place ≡ Some m → Happened now Tick m.router (at_moment now m.router) nothing }
    {
        self.items[place].router.pass(now);
    }

    /// The router at a place lets an arrival pass.
    ///
    /// # Errors
    ///
    /// Out of memory; the routers are as before then.
    pub(crate) fn let_pass(
        &mut self,
        place: usize,
        passing: Passing,
        now: Moment,
    ) -> Result<(), NoMemory>
        requires there { place < length self.old }
        requires in_range { now ≤ 2 ^ 48 }
        requires router { (m : Member) → slice_get self.old place ≡ Some m → IsRouter (after_passing passing now m.router) }
        ensures ok { OnOk result ((m : Member) → slice_get self.old place ≡ Some m
            → self.new ≡ slice_set self.old place (record m { router = after_passing passing now m.router })) }
        ensures err { OnErr result (self.new ≡ self.old) }
    {
        self.items[place].router.let_pass(passing, now)
    }

    /// A router stops. Never allocates.
    pub(crate) fn stop(&mut self, place: usize)
        requires { place < length self.old }
        ensures { (m : Member) → slice_get self.old place ≡ Some m → self.new ≡ slice_set self.old place (stopped m) }
    {
        self.items[place].running = false;
    }
}
