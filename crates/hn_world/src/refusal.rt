//! Which events a world refuses, with which code. Nothing here allocates.

ghost use Rattle.std.specs.Prelude.{◌≡◌, ◌||◌, ◌&&◌, ◌==◌, nat_le, [], ◌∷◌, length, option_copied};
ghost use Rattle.hn_base.specs.Name.{name_text};
ghost use Rattle.hn_base.specs.declared.name.Name.{Name};
ghost use Rattle.std.specs.List.{list_any};
ghost use Rattle.hn_world.specs.declared.event.WEvent.TheVariants as event;
ghost use Rattle.hn_world.specs.Names.{is_taken_name, link_place};
ghost use Rattle.hn_world.specs.Refusal.{so_of, copy_at, named_member, acting, names_nothing, takes_a_name, is_stopped, is_detached, lacks_the_endpoint, may_not_address};
ghost use Rattle.hn_world.specs.Refusal.{joins_twice, lacks_a_copy, goes_back, lacks_room, is_full_of_mail, may_answer, first_code, refusal, refusal_at};
ghost use Rattle.hn_world.specs.Routed.{named_by, place_by};

use crate::copies::{MOST_BYTES, MailCopy};
use crate::event::WEvent;
use crate::limits::{MOST_LINKS, most_routers};
use crate::member::Member;
use crate::parts::Parts;
use hn_base::{EpId, Name};

/// The code of a name that is unknown or names the other kind.
pub const UNKNOWN: u8 = 7;

/// The code of the name of a new router or link that is taken.
const TAKEN: u8 = 8;

/// The code of one router, link, endpoint, delegated prefix or event too many.
const FULL: u8 = 9;

/// The code of a moment before the present one.
pub const PAST: u8 = 10;

/// The code of an endpoint that is in use or not attached.
pub const NOT_ATTACHED: u8 = 11;

/// The code of a router that is stopped.
pub const STOPPED: u8 = 12;

/// The code of a number that no copy has.
const NO_COPY: u8 = 13;

/// The code of a second endpoint of a router on one link.
const LINK_IN_USE: u8 = 14;

/// The code of one copy or byte of mail too many.
const FULL_OF_MAIL: u8 = 16;

/// The code of addresses that a router may not have.
const UNLISTED: u8 = 19;

/// The most copies, where further ones may be made.
const MOST_COPIES: usize = 1_000_000;

/// The code of the first that is so.
fn first_code(conditions: &[(u8, bool)]) -> Option<u8>
    ensures { result ≡ first_code conditions.now }
{
    conditions
        .iter()
        .find(|condition| condition.1)
        .map(|condition| condition.0)
}

/// Whether the router is stopped.
fn is_stopped(event: &WEvent, router: Option<&Member>) -> bool
    ensures { result ≡ is_stopped event.now (option_copied router.entry) }
{
    match event {
        WEvent::Start { .. } => false,
        _ => match router {
            Some(member) => !member.running,
            None => false,
        },
    }
}

/// Whether an endpoint is not attached.
fn is_detached(endpoint: EpId, router: Option<&Member>) -> bool
    ensures { result ≡ is_detached endpoint (option_copied router.entry) }
{
    match router {
        Some(member) => !member.router.attached(endpoint),
        None => false,
    }
}

/// Whether the list may not be the addresses of the router.
fn may_not_address(event: &WEvent, router: Option<&Member>) -> bool
    ensures { result ≡ may_not_address event.now (option_copied router.entry) }
{
    match event {
        WEvent::Addresses { list, .. } => match router {
            Some(member) => !member.router.may_address(list.as_slice()),
            None => false,
        },
        _ => false,
    }
}

/// Whether the router may answer.
fn may_answer(event: &WEvent) -> bool
    ensures { result ≡ may_answer event.now }
{
    match event {
        WEvent::Tick { .. } | WEvent::Deliver { .. } | WEvent::Inject { .. } => true,
        _ => false,
    }
}

impl Parts {
    /// The copy of a number.
    pub(crate) fn copy_at(&self, copy: u64) -> Option<&MailCopy>
        ensures { option_copied result ≡ copy_at self.now copy }
    {
        match copy.checked_sub(1) {
            Some(place) => self
                .copies
                .get(usize::try_from(place).unwrap_or(usize::MAX)),
            None => None,
        }
    }

    /// The router that an event names, which is at this place.
    fn named_member(&self, event: &WEvent, place: Option<usize>) -> Option<&Member>
        requires { place ≡ place_by (named_by event.now) self.now }
        ensures { option_copied result ≡ named_member event.now self.now }
    {
        match place {
            Some(place) => self.members.get(place),
            None => None,
        }
    }

    /// The router at which an event happens: the one to which its copy goes, or the one that it names, which is at this
    /// place.
    fn acting(&self, event: &WEvent, place: Option<usize>) -> Option<&Member>
        requires { place ≡ place_by (named_by event.now) self.now }
        ensures { option_copied result ≡ acting event.now self.now }
    {
        match event {
            WEvent::Deliver { copy } => match self.copy_at(*copy) {
                Some(copy) => self.members.get(copy.to.place),
                None => None,
            },
            _ => self.named_member(event, place),
        }
    }

    /// Whether a name is unknown, or the router of a copy.
    fn names_nothing(&self, event: &WEvent, router: Option<&Member>) -> bool
        ensures { result ≡ names_nothing event.now self.now (option_copied router.entry) }
    {
        match event {
            WEvent::Attach { link, .. } => {
                router.is_none() || self.links.place_of(link).is_none()
            }
            WEvent::Deliver { copy } => self.copy_at(*copy).is_some() && router.is_none(),
            _ => event.named().is_some() && router.is_none(),
        }
    }

    /// Whether a name is taken, by a router or a link.
    fn is_taken(&self, name: &Name) -> bool
        ensures { result ≡ is_taken_name (name_text name.now) self.now }
    {
        self.members.place_of(name).is_some() || self.links.place_of(name).is_some()
    }

    /// Whether the name of a new router or link is taken.
    fn takes_a_name(&self, event: &WEvent) -> bool
        ensures { result ≡ takes_a_name event.now self.now }
    {
        match event {
            WEvent::Router { name, .. } | WEvent::Link { name } => self.is_taken(name),
            _ => false,
        }
    }

    /// Whether the endpoint is in use, or not attached.
    fn lacks_the_endpoint(&self, event: &WEvent, router: Option<&Member>) -> bool
        ensures { result ≡ lacks_the_endpoint event.now self.now (option_copied router.entry) }
    {
        match event {
            WEvent::Attach { endpoint, .. } => match router {
                Some(member) => member.router.attached(*endpoint),
                None => false,
            },
            WEvent::Detach { endpoint, .. } => is_detached(*endpoint, router),
            WEvent::Inject { endpoint, .. } => is_detached(*endpoint, router),
            WEvent::Deliver { copy } => match self.copy_at(*copy) {
                Some(copy) => is_detached(copy.to.endpoint, router),
                None => false,
            },
            _ => false,
        }
    }

    /// Whether a router has an endpoint on the link of a name.
    fn is_joined(&self, member: &Member, link: &Name) -> bool
        ensures { result ≡ so_of (λ at. list_any (λ a. a.link == at) member.now.attachments) (link_place (name_text link.now) self.now) }
    {
        match self.links.place_of(link) {
            Some(link) => member.has_link(link),
            None => false,
        }
    }

    /// Whether the router already has an endpoint on that link.
    fn joins_twice(&self, event: &WEvent, router: Option<&Member>) -> bool
        ensures { result ≡ joins_twice event.now self.now (option_copied router.entry) }
    {
        match event {
            WEvent::Attach { link, .. } => match router {
                Some(member) => self.is_joined(member, link),
                None => false,
            },
            _ => false,
        }
    }

    /// Whether there is no such copy.
    fn lacks_a_copy(&self, event: &WEvent) -> bool
        ensures { result ≡ lacks_a_copy event.now self.now }
    {
        match event {
            WEvent::Deliver { copy } | WEvent::Drop { copy } => self.copy_at(*copy).is_none(),
            _ => false,
        }
    }

    /// Whether the moment would fall.
    fn goes_back(&self, event: &WEvent) -> bool
        ensures { result ≡ goes_back event.now self.now }
    {
        match event {
            WEvent::Time { moment } => *moment < self.moment.get(),
            _ => false,
        }
    }

    /// Whether it is one router, link, endpoint or delegated prefix too many.
    fn lacks_room(&self, event: &WEvent, router: Option<&Member>) -> bool
        ensures { result ≡ lacks_room event.now self.now (option_copied router.entry) }
    {
        match event {
            WEvent::Router { .. } => self.members.as_slice().len() >= most_routers(self.version),
            WEvent::Link { .. } => self.links.len() >= MOST_LINKS,
            WEvent::Attach { .. } => match router {
                Some(member) => !member.router.has_room(),
                None => false,
            },
            WEvent::External { prefix, .. } => match router {
                Some(member) => !member.router.may_have(prefix),
                None => false,
            },
            _ => false,
        }
    }

    /// Whether it is too many, or one event too many.
    fn is_full(&self, event: &WEvent, router: Option<&Member>) -> bool
        ensures { result ≡ (lacks_room event.now self.now (option_copied router.entry) || nat_le 1000000 (length self.now.trace)) }
    {
        self.lacks_room(event, router) || self.trace.is_full()
    }

    /// Whether there are as many copies or bytes of mail as there may be before a router answers.
    fn has_much_mail(&self) -> bool
        ensures { result ≡ is_full_of_mail self.now }
    {
        self.copies.len() >= MOST_COPIES
            || self.copies.bytes() + self.trace.injected() >= MOST_BYTES
    }

    /// Whether the router may answer, and there is so much mail.
    fn is_full_of_mail(&self, event: &WEvent) -> bool
        ensures { result ≡ (may_answer event.now && is_full_of_mail self.now) }
    {
        may_answer(event) && self.has_much_mail()
    }

    /// The code where the trace, or the mail, has no room for what a router may answer.
    fn refusal_of_answer(&self) -> Option<u8>
        ensures { result ≡ first_code ((9, nat_le 1000000 (length self.now.trace)) ∷ (16, is_full_of_mail self.now) ∷ []) }
    {
        if self.trace.is_full() {
            return Some(FULL);
        }
        if self.has_much_mail() {
            return Some(FULL_OF_MAIL);
        }
        None
    }

    /// The code with which a tick of a router is refused.
    fn refusal_of_tick(&self, router: Option<&Member>) -> Option<u8>
        ensures { (name : Name) → result ≡ refusal_at (event.Tick name) self.now (option_copied router.entry) }
    {
        let Some(member) = router else {
            return Some(UNKNOWN);
        };
        if !member.running {
            return Some(STOPPED);
        }
        self.refusal_of_answer()
    }

    /// The code with which the delivery of a copy is refused.
    fn refusal_of_delivery(&self, copy: u64) -> Option<u8>
        ensures { result ≡ refusal self.now (event.Deliver copy) }
    {
        let Some(copy) = self.copy_at(copy) else {
            return Some(NO_COPY);
        };
        let Some(member) = self.members.get(copy.to.place) else {
            return Some(UNKNOWN);
        };
        if !member.running {
            return Some(STOPPED);
        }
        if !member.router.attached(copy.to.endpoint) {
            return Some(NOT_ATTACHED);
        }
        self.refusal_of_answer()
    }

    /// The code of the first condition that refuses an event, which happens at this router.
    fn refusal_at(&self, event: &WEvent, router: Option<&Member>) -> Option<u8>
        ensures { result ≡ refusal_at event.now self.now (option_copied router.entry) }
    {
        first_code(&[
            (UNKNOWN, self.names_nothing(event, router)),
            (TAKEN, self.takes_a_name(event)),
            (STOPPED, is_stopped(event, router)),
            (NOT_ATTACHED, self.lacks_the_endpoint(event, router)),
            (UNLISTED, may_not_address(event, router)),
            (LINK_IN_USE, self.joins_twice(event, router)),
            (NO_COPY, self.lacks_a_copy(event)),
            (PAST, self.goes_back(event)),
            (FULL, self.is_full(event, router)),
            (FULL_OF_MAIL, self.is_full_of_mail(event)),
        ])
    }

    /// The code with which an event is refused, whose router is at this place; `None` if and only if it is accepted.
    /// Ticks and deliveries, the most frequent, are asked only what can refuse them. Never allocates.
    pub(crate) fn refusal(&self, event: &WEvent, place: Option<usize>) -> Option<u8>
        requires { place ≡ place_by (named_by event.now) self.now }
        ensures { result ≡ refusal self.now event.now }
    {
        match event {
            WEvent::Tick { .. } => self.refusal_of_tick(self.named_member(event, place)),
            WEvent::Deliver { copy } => self.refusal_of_delivery(*copy),
            _ => self.refusal_at(event, self.acting(event, place)),
        }
    }
}
