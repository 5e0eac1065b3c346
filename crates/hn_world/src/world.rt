ghost use Rattle.std.specs.Prelude.{◌≡◌, ◌↔◌, ◌≤◌, ◌^◌, ◌-◌, ◌++◌, ◌∷◌, [], ℕ, min, length, None, Some, Err, true, false, IfOk, IfSome, OnErr, option_copied};
ghost use Rattle.std.specs.Option.{option_map, option_map_or};
ghost use Rattle.std.specs.List.{slice_get};
ghost use Rattle.hn_base.specs.Name.{name_text};
ghost use Rattle.hn_base.specs.declared.version.Version.TheVariants.{One};
ghost use Rattle.hn_world.specs.Authentic.{AuthenticUnlessInjected};
ghost use Rattle.hn_world.specs.Existing.{HasAStep};
ghost use Rattle.hn_world.specs.Names.{member_named};
ghost use Rattle.hn_world.specs.Refusal.{refusal};
ghost use Rattle.hn_world.specs.Routed.{named_by, place_by};
ghost use Rattle.hn_world.specs.Step.{IsStep, IsWorldEventInRange};
ghost use Rattle.hn_world.specs.Replay.{empty_world, IsReplayed, IsSoundWorld};

use crate::copies::Copies;
use crate::event::{Effect, Traced, WEvent, WorldFault};
use crate::kept::KeptTrace;
use crate::laws::{always_authentic, always_sound, names_differ};
use crate::links::Links;
use crate::member::{Member, Members};
use crate::parts::Parts;
use crate::published::Publications;
use crate::trace::Trace;
use hn_base::{Moment, Name, NoMemory, Sequence, Version};
use hn_io::Draw;
use hn_router::Router;
use hn_rules::{Note, Present, Publication};
use std::alloc::Global;
use std::marker::Model;

/// A world: it is the replay of its trace. A trace may be kept for reading, and else exists in proofs alone.
#[derive(Drop)]
pub struct World {
    pub(crate) parts: Parts,
    kept: KeptTrace,
    /// The place after that of the router that the last event named. Routers mostly come in turn, so it is asked first.
    next: usize,
}

impl Model for World {
    ghost use Rattle.hn_world.specs.SeenWorld.{SeenWorld, KeepsTrace};
    ghost use Rattle.hn_world.specs.Replay.{IsReplayed};

    ghost Value = { SeenWorld };

    ghost view = { λ w. record { parts = w.parts; kept = w.kept.always } };

    ghost invariant = { λ w. IsReplayed w.parts × KeepsTrace w.kept w.parts.trace };
}

/// What came of an event of which routers noted nothing. Never allocates.
fn unnoted(alloc: Global, traced: Traced) -> Effect
    ensures notes { result.notes ≡ [] }
    ensures traced { result.traced ≡ traced }
{
    Effect {
        notes: Sequence::new(alloc),
        traced,
    }
}

/// The place to ask first after an event of the router at this place.
fn after(place: Option<usize>) -> usize {
    match place {
        Some(place) => place.saturating_add(1),
        None => 0,
    }
}

impl Parts {
    /// At moment 0, with nothing in it. Never allocates.
    fn empty(alloc: Global, version: Version) -> Parts
        ensures { result ≡ empty_world version }
    {
        Parts {
            version,
            moment: Present::new(0),
            links: Links::new(alloc),
            members: Members::new(alloc),
            copies: Copies::new(alloc),
            published: Publications::new(alloc),
            trace: Trace::new(),
        }
    }

    /// Does what an event does that names no router.
    fn happen_else<D: Draw>(
        &mut self,
        alloc: Global,
        event: WEvent,
        draw: &mut D,
    ) -> Result<Effect, NoMemory>
        requires nameless { named_by event ≡ None }
        requires accepted { refusal self.old event ≡ None }
        requires in_range { IsWorldEventInRange event }
        requires sound { IsSoundWorld self.old }
        ensures ok { IfOk result (λ happened. IsStep event happened.notes (D.words draw.old) (D.words draw.new) self.old self.new) }
        ensures traced { IfOk result (λ happened. self.new.trace ≡ self.old.trace ++ happened.traced ∷ []) }
        ensures err { OnErr result (self.new ≡ self.old) }
    {
        match event {
            WEvent::Router { name, id } => {
                let traced = self.define_router(alloc, name, id)?;
                return Ok(unnoted(alloc, traced));
            }
            WEvent::Link { name } => {
                let traced = self.define_link(alloc, name)?;
                return Ok(unnoted(alloc, traced));
            }
            WEvent::Time { moment } => {
                let traced = self.pass(alloc, moment);
                return Ok(unnoted(alloc, traced));
            }
            WEvent::Drop { copy } => {
                let traced = self.drop_copy(alloc, copy);
                return Ok(unnoted(alloc, traced));
            }
            WEvent::Deliver { copy } => return self.deliver(alloc, copy, draw),
            _ => unreachable!(),
        }
    }

    /// Does what the event does. Its router, if it names one, is at this place.
    fn happen<D: Draw>(
        &mut self,
        alloc: Global,
        event: WEvent,
        place: Option<usize>,
        draw: &mut D,
    ) -> Result<Effect, NoMemory>
        requires placed { place ≡ place_by (named_by event) self.old }
        requires accepted { refusal self.old event ≡ None }
        requires in_range { IsWorldEventInRange event }
        requires sound { IsSoundWorld self.old }
        ensures ok { IfOk result (λ happened. IsStep event happened.notes (D.words draw.old) (D.words draw.new) self.old self.new) }
        ensures traced { IfOk result (λ happened. self.new.trace ≡ self.old.trace ++ happened.traced ∷ []) }
        ensures err { OnErr result (self.new ≡ self.old) }
    {
        let Some(place) = place else {
            return self.happen_else(alloc, event, draw);
        };
        match event {
            WEvent::Stop { name } => {
                let traced = self.stop(alloc, name, place);
                let notes = Sequence::new(alloc);
                Ok(Effect { notes, traced })
            }
            WEvent::Tick { name } if self.is_undue(place) => {
                Ok(self.pass_tick(alloc, name, place, draw))
            }
            event => self.act(alloc, event, place, draw),
        }
    }
}

impl World {
    /// A world of version 1 at moment 0 with nothing in it, whose trace is kept. Never allocates.
    pub fn new(alloc: Global) -> World
        ensures empty { result.parts ≡ empty_world One }
        ensures kept { result.kept ≡ true }
    {
        World::of(alloc, Version::One)
    }

    /// A world of a version at moment 0 with nothing in it, whose trace is kept. Never allocates.
    pub fn of(alloc: Global, version: Version) -> World
        ensures empty { result.parts ≡ empty_world version }
        ensures kept { result.kept ≡ true }
    {
        World {
            parts: Parts::empty(alloc, version),
            kept: KeptTrace::new(alloc, true),
            next: 0,
        }
    }

    /// The same, but of its trace nothing is kept. Never allocates.
    pub fn without_trace(alloc: Global, version: Version) -> World
        ensures { result.parts ≡ empty_world version }
    {
        World {
            parts: Parts::empty(alloc, version),
            kept: KeptTrace::none(),
            next: 0,
        }
    }

    /// The same, but its trace is kept only as long as there is memory: `recorded` answers it. Never allocates.
    pub fn recording(alloc: Global, version: Version) -> World
        ensures { result.parts ≡ empty_world version }
    {
        World {
            parts: Parts::empty(alloc, version),
            kept: KeptTrace::new(alloc, false),
            next: 0,
        }
    }

    /// The code with which an event is refused; `None` if and only if it is accepted. Never allocates.
    pub fn refusal(&self, event: &WEvent) -> Option<u8>
        ensures { result ≡ refusal self.now.parts event.now }
    {
        names_differ();
        self.parts
            .refusal(event, self.parts.place_near(event, self.next))
    }

    /// Lets an event happen, and answers what routers noted. What routers hold afterwards was published, or two texts that
    /// were published collide, where no datagram was injected so far (RFC 7787, section 7.2.3). Whether there is memory or
    /// not, it cannot be that an accepted event has no result over a stream of random words.
    ///
    /// # Errors
    ///
    /// `Refused`, which is found without taking memory, and out of memory. The world is as before then. After `Refused`
    /// no random word was taken. Out of memory does not come of an event that is refused.
    pub fn apply<D: Draw>(
        &mut self,
        alloc: Global,
        event: WEvent,
        draw: &mut D,
    ) -> Result<Sequence<Note>, WorldFault>
        requires { IsWorldEventInRange event }
        ensures ok { IfOk result (λ notes. IsStep event notes (D.words draw.old) (D.words draw.new) self.old.parts self.new.parts) }
        ensures refused { (code : ℕ) → (result ≡ Err (WorldFault.Refused code)) ↔ (refusal self.old.parts event ≡ Some code) }
        ensures err { OnErr result (self.new ≡ self.old) }
        ensures kept { self.new.kept ≡ self.old.kept }
        ensures undrawn { (code : ℕ) → result ≡ Err (WorldFault.Refused code) → draw.new ≡ draw.old }
        ensures authentic { IfOk result (λ _. AuthenticUnlessInjected self.new.parts) }
        ensures exists { refusal self.old.parts event ≡ None → HasAStep event self.old.parts }
    {
        always_sound();
        always_authentic();
        names_differ();
        let place = self.parts.place_near(&event, self.next);
        if let Some(code) = self.parts.refusal(&event, place) {
            return Err(WorldFault::Refused(code));
        }
        self.parts.has_a_step(&event);
        self.kept.make_room()?;
        let effect = self.parts.happen(alloc, event, place, draw)?;
        self.kept.push(effect.traced);
        self.next = after(place);
        Ok(effect.notes)
    }

    /// The moment of the world, in milliseconds, at most 2^48. Never allocates.
    pub fn moment(&self) -> Moment
        ensures moment { result ≡ self.now.parts.moment }
        ensures in_range { result ≤ 2 ^ 48 }
    {
        self.parts.moment.get()
    }

    /// The router of a name, stopped or not; `None` if and only if there is none. Never allocates.
    pub fn router(&self, name: &Name) -> Option<&Router>
        ensures { option_copied result ≡ option_map (λ m. m.router) (member_named (name_text name.now) self.now.parts) }
    {
        self.parts.members.find(name).map(|member| &member.router)
    }

    /// The router of that name, with its attachments; `None` if and only if there is none. Never allocates.
    pub fn member(&self, name: &Name) -> Option<&Member>
        ensures { option_copied result ≡ member_named (name_text name.now) self.now.parts }
    {
        self.parts.members.find(name)
    }

    /// Whether there is a router of that name and it runs. Never allocates.
    pub fn running(&self, name: &Name) -> bool
        ensures { result ≡ option_map_or (λ m. m.running) (member_named (name_text name.now) self.now.parts) false }
    {
        match self.parts.members.find(name) {
            Some(member) => member.running,
            None => false,
        }
    }

    /// The name of the router at a place, in order of definition from place 0, stopped ones too; `None` if and only if the
    /// place is past the last. Never allocates.
    pub fn router_at(&self, place: usize) -> Option<Name>
        ensures { result ≡ option_map (λ m. m.name) (slice_get self.now.parts.members place) }
    {
        self.parts.members.get(place).map(|member| member.name)
    }

    /// The routers, stopped ones too, with their attachments, in order of definition. Never allocates.
    pub fn members(&self) -> &[Member]
        ensures { result.now ≡ self.now.parts.members }
    {
        self.parts.members.as_slice()
    }

    /// The events that were accepted, in order. Never allocates.
    pub fn trace(&self) -> &[Traced]
        requires kept { self.now.kept ≡ true }
        ensures { result.now ≡ self.now.parts.trace }
    {
        match &self.kept.items {
            Some(items) => items.as_slice(),
            None => unreachable!(),
        }
    }

    /// The events that were accepted, in order; `None` where they are not kept, or memory ended. Never allocates.
    pub fn recorded(&self) -> Option<&[Traced]>
        ensures { IfSome result (λ trace. trace.now ≡ self.now.parts.trace) }
    {
        match &self.kept.items {
            Some(items) => Some(items.as_slice()),
            None => None,
        }
    }

    /// How many events were accepted, up to 2^64 - 1. Never allocates.
    pub fn events(&self) -> u64
        ensures { result ≡ min (length self.now.parts.trace) (2 ^ 64 - 1) }
    {
        self.parts.trace.count()
    }

    /// What the routers published, in order. Never allocates.
    pub fn publications(&self) -> &[Publication]
        ensures { result.now ≡ self.now.parts.published }
    {
        self.parts.published.as_slice()
    }

    /// That the world is the replay of its trace. Never allocates.
    pub fn is_replayed(&self)
        ensures { IsReplayed self.now.parts }
    {
        let _parts = &self.parts;
    }
}
