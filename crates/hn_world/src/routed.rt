//! The events of a world that happen at a router, by the router's name.

ghost use Rattle.std.specs.Prelude.{◌≡◌, ◌<◌, length, Some, IfOk};
ghost use Rattle.std.specs.List.{slice_get};
ghost use Rattle.std.specs.Option.{option_map};
ghost use Rattle.hn_rules.specs.declared.state.State.{State};
ghost use Rattle.hn_world.specs.declared.member.Member.{Member};
ghost use Rattle.hn_router.specs.Act.{plain_event};
ghost use Rattle.hn_world.specs.Beside.{with_beside};
ghost use Rattle.hn_world.specs.Names.{NamesDiffer};
ghost use Rattle.hn_world.specs.Refusal.{refusal};
ghost use Rattle.hn_world.specs.Routed.{routed, named_by, place_by};
ghost use Rattle.hn_world.specs.Step.{beside};

use crate::event::WEvent;
use crate::member::Attachment;
use crate::parts::Parts;
use hn_base::{Name, NoMemory, Sequence};
use hn_router::Event;
use std::alloc::Global;

/// What changes of a router's member beside the router.
#[derive(Drop)]
pub(crate) enum Beside {
    /// Nothing.
    Nothing,
    /// It has these attachments.
    Attachments(Sequence<Attachment>),
    /// It runs.
    Runs,
}

impl WEvent {
    /// What happens at a router, where the event is one of a router by its name. Never allocates.
    pub(crate) fn routed(&self) -> Option<(Name, Event<'_>)>
        ensures { option_map (λ own. (own.0, plain_event own.1)) result ≡ routed self.now }
    {
        let (name, own) = match self {
            WEvent::Attach { name, endpoint, .. } => (
                name,
                Event::Attach {
                    endpoint: *endpoint,
                },
            ),
            WEvent::Detach { name, endpoint } => (
                name,
                Event::Detach {
                    endpoint: *endpoint,
                },
            ),
            WEvent::External {
                name,
                prefix,
                valid,
                preferred,
            } => (
                name,
                Event::External {
                    prefix: *prefix,
                    valid: *valid,
                    preferred: *preferred,
                },
            ),
            WEvent::Withdraw { name, prefix } => (name, Event::Withdraw { prefix: *prefix }),
            WEvent::Caps { name, caps } => (name, Event::Caps { caps: *caps }),
            WEvent::Private { name, length } => (name, Event::Private { length: *length }),
            WEvent::Addresses { name, list } => (
                name,
                Event::Addresses {
                    list: list.as_slice(),
                },
            ),
            WEvent::Start { name } => (name, Event::Restart),
            WEvent::Tick { name } => (name, Event::Tick),
            WEvent::Inject {
                name,
                endpoint,
                from,
                multicast,
                bytes,
            } => (
                name,
                Event::Arrive {
                    endpoint: *endpoint,
                    from: *from,
                    multicast: *multicast,
                    bytes: bytes.as_slice(),
                },
            ),
            _ => return None,
        };
        Some((*name, own))
    }

    /// The router that the event names. Never allocates.
    pub fn named(&self) -> Option<Name>
        ensures { result ≡ named_by self.now }
    {
        match self {
            WEvent::Attach { name, .. }
            | WEvent::Detach { name, .. }
            | WEvent::External { name, .. }
            | WEvent::Withdraw { name, .. }
            | WEvent::Caps { name, .. }
            | WEvent::Private { name, .. }
            | WEvent::Addresses { name, .. }
            | WEvent::Stop { name }
            | WEvent::Start { name }
            | WEvent::Tick { name }
            | WEvent::Inject { name, .. } => Some(*name),
            _ => None,
        }
    }
}

impl Parts {
    /// The place of the router that an event names. This place is asked first. Never allocates.
    pub(crate) fn place_near(&self, event: &WEvent, first: usize) -> Option<usize>
        requires { NamesDiffer self.now.members }
        ensures { result ≡ place_by (named_by event.now) self.now }
    {
        let name = event.named()?;
        self.members.place_near(&name, first)
    }

    /// What an event changes beside the router at a place.
    pub(crate) fn beside(
        &self,
        alloc: Global,
        event: &WEvent,
        place: usize,
    ) -> Result<Beside, NoMemory>
        requires there { place < length self.now.members }
        ensures { IfOk result (λ change. (m : Member) (next : State) → slice_get self.now.members place ≡ Some m
            → with_beside change (record m { router = next }) ≡ beside event.now self.now (record m { router = next })) }
    {
        let member = self.members.at(place);
        Ok(match event {
            WEvent::Attach { endpoint, link, .. } => match self.links.place_of(link) {
                Some(link) => {
                    Beside::Attachments(member.attachments_with(alloc, *endpoint, link)?)
                }
                None => Beside::Nothing,
            },
            WEvent::Detach { endpoint, .. } => {
                Beside::Attachments(member.attachments_without(alloc, *endpoint)?)
            }
            WEvent::Start { .. } => Beside::Runs,
            _ => Beside::Nothing,
        })
    }
}
