//! Events at a router of the world.

ghost use Rattle.std.specs.Prelude.{◌≡◌, ◌-◌, ◌<◌, ◌++◌, ◌∷◌, [], nat_lt, length, IfOk, IfSome, OnOk, OnErr, IsSome, None, Some};
ghost use Rattle.hn_base.specs.Name.{name_text};
ghost use Rattle.std.specs.List.{slice_get};
ghost use Rattle.hn_router.specs.Act.{plain_event};
ghost use Rattle.hn_world.specs.declared.event.WEvent.TheVariants as event;
ghost use Rattle.hn_world.specs.declared.member.Member.{Member};
ghost use Rattle.hn_world.specs.Names.{router_place};
ghost use Rattle.hn_world.specs.Planned.{LetsPass, LetsCopyPass};
ghost use Rattle.hn_world.specs.Refusal.{refusal};
ghost use Rattle.hn_world.specs.Replay.{IsSoundWorld};
ghost use Rattle.hn_world.specs.Routed.{routed, named_by, place_by};
ghost use Rattle.hn_world.specs.Step.{Step, IsStep, IsWorldEventInRange};

use crate::event::{Effect, Traced, WEvent};
use crate::parts::Parts;
use crate::plain_events::enter;
use crate::routed::Beside;
use hn_base::{Name, NoMemory, Sequence};
use hn_io::Draw;
use hn_router::{Event, event_in_range};
use hn_rules::Passing;
use std::alloc::Global;

impl Parts {
    /// Whether nothing is due yet for the router at a place. Never allocates.
    pub(crate) fn is_undue(&self, place: usize) -> bool
        requires { place < length self.now.members }
        ensures { (m : Member) → slice_get self.now.members place ≡ Some m → result ≡ nat_lt self.now.moment m.router.due }
    {
        self.moment.get() < self.members.at(place).router.due_at()
    }

    /// A tick of the router of a name, which is at this place, before something is due for it: the router's moment and an
    /// entry in the trace, and nothing else.
    pub(crate) fn pass_tick<D: Draw>(
        &mut self,
        alloc: Global,
        name: Name,
        place: usize,
        draw: &mut D,
    ) -> Effect
        requires placed { router_place (name_text name) self.old ≡ Some place }
        requires undue { (m : Member) → slice_get self.old.members place ≡ Some m → self.old.moment < m.router.due }
        requires accepted { refusal self.old (event.Tick name) ≡ None }
        requires sound { IsSoundWorld self.old }
        ensures ok { IsStep (event.Tick name) result.notes (D.words draw.old) (D.words draw.new) self.old self.new }
        ensures traced { self.new.trace ≡ self.old.trace ++ result.traced ∷ [] }
    {
        self.members.pass(place, self.moment.get());
        Effect {
            notes: Sequence::new(alloc),
            traced: enter(&mut self.trace, alloc, WEvent::Tick { name }),
        }
    }

    /// An event happens at the router of the name in it, which is at this place.
    pub(crate) fn act<D: Draw>(
        &mut self,
        alloc: Global,
        event: WEvent,
        place: usize,
        draw: &mut D,
    ) -> Result<Effect, NoMemory>
        requires routed { IsSome (routed event) }
        requires placed { place_by (named_by event) self.old ≡ Some place }
        requires accepted { refusal self.old event ≡ None }
        requires in_range { IsWorldEventInRange event }
        requires sound { IsSoundWorld self.old }
        ensures ok { IfOk result (λ happened. IsStep event happened.notes (D.words draw.old) (D.words draw.new) self.old self.new) }
        ensures traced { IfOk result (λ happened. self.new.trace ≡ self.old.trace ++ happened.traced ∷ []) }
        ensures err { OnErr result (self.new ≡ self.old) }
    {
        let Some((_, own)) = event.routed() else {
            unreachable!()
        };
        event_in_range(&own);
        let beside = self.beside(alloc, &event, place)?;
        let plan = self.plan(alloc, place, &own, draw)?;
        self.finish(alloc, event, beside, place, plan)
    }

    /// What an event changes at the router of a place, if it is an arrival that the router lets pass. Never allocates.
    fn passing(&self, place: usize, event: &Event<'_>) -> Option<Passing>
        requires there { place < length self.now.members }
        requires sound { IsSoundWorld self.now }
        ensures { IfSome result (LetsPass place (plain_event event.now) self.now) }
    {
        let member = self.members.at(place);
        member.router.passing(event, self.moment.get())
    }

    /// A copy is delivered to its endpoint, of the router at a place, which lets it pass.
    fn pass_copy(
        &mut self,
        alloc: Global,
        copy: u64,
        place: usize,
        passing: Passing,
    ) -> Result<Traced, NoMemory>
        requires accepted { refusal self.old (event.Deliver copy) ≡ None }
        requires passes { LetsCopyPass copy place self.old passing }
        ensures ok { OnOk result (Step (record { event = event.Deliver copy; words = [] }) [] self.old self.new) }
        ensures traced { IfOk result (λ traced. self.new.trace ≡ self.old.trace ++ traced ∷ []) }
        ensures err { OnErr result (self.new ≡ self.old) }
    {
        let at = (copy - 1) as usize;
        self.members.let_pass(place, passing, self.moment.get())?;
        self.copies.take(at);
        Ok(enter(&mut self.trace, alloc, WEvent::Deliver { copy }))
    }

    /// A copy is delivered to its endpoint.
    pub(crate) fn deliver<D: Draw>(
        &mut self,
        alloc: Global,
        copy: u64,
        draw: &mut D,
    ) -> Result<Effect, NoMemory>
        requires accepted { refusal self.old (event.Deliver copy) ≡ None }
        requires sound { IsSoundWorld self.old }
        ensures ok { IfOk result (λ happened. IsStep (event.Deliver copy) happened.notes (D.words draw.old) (D.words draw.new) self.old self.new) }
        ensures traced { IfOk result (λ happened. self.new.trace ≡ self.old.trace ++ happened.traced ∷ []) }
        ensures err { OnErr result (self.new ≡ self.old) }
    {
        let Some(mail) = self.copy_at(copy) else {
            unreachable!()
        };
        let arrival = Event::Arrive {
            endpoint: mail.to.endpoint,
            from: mail.from,
            multicast: mail.multicast,
            bytes: mail.bytes.get().as_slice(),
        };
        let place = mail.to.place;
        if let Some(passing) = self.passing(place, &arrival) {
            let traced = self.pass_copy(alloc, copy, place, passing)?;
            let notes = Sequence::new(alloc);
            return Ok(Effect { notes, traced });
        }
        let plan = self.plan(alloc, place, &arrival, draw)?;
        let event = WEvent::Deliver { copy };
        let happened = self.finish(alloc, event, Beside::Nothing, place, plan)?;
        self.copies.take((copy - 1) as usize);
        Ok(happened)
    }
}
