//! An event at a router: first what it would do, then all room, and only then the change.

ghost use Rattle.std.specs.Prelude.{◌≡◌, ◌+◌, ◌++◌, ◌∷◌, ◌≤◌, ◌<◌, [], true, All, length, vec_len, vec_capacity, IfOk, OnOk, OnErr, Some};
ghost use Rattle.std.specs.List.{slice_get, slice_set};
ghost use Rattle.hn_own.specs.Ports.{ArePorts};
ghost use Rattle.hn_router.specs.Act.{plain_event};
ghost use Rattle.hn_world.specs.declared.member.Member.{Member};
ghost use Rattle.hn_world.specs.Beside.{with_beside};
ghost use Rattle.hn_world.specs.Mail.{copies_of};
ghost use Rattle.hn_world.specs.Planned.{IsPlanned};
ghost use Rattle.hn_world.specs.Replay.{IsSoundWorld};
ghost use Rattle.hn_world.specs.Step.{acted, entered};

use crate::copies::Copies;
use crate::event::{Effect, Traced, WEvent};
use crate::mail::copies_of;
use crate::member::Members;
use crate::parts::Parts;
use crate::routed::Beside;
use crate::trace::Trace;
use hn_base::NoMemory;
use hn_io::Draw;
use hn_router::{Event, Plan};
use hn_rules::{Done, Publication};
use std::alloc::Global;

/// Makes room for what the router at a place would publish, and adds the copies of what it would send; or nothing.
fn make_room(
    alloc: Global,
    members: &Members,
    place: usize,
    plan: &Plan,
    published: &mut Vec<Publication>,
    copies: &mut Copies,
) -> Result<(), NoMemory>
    requires there { place < length members.now }
    requires ports { All (λ m. ArePorts m.router.ports) members.now }
    ensures published { published.new.items ≡ published.old.items }
    ensures publications_fit { OnOk result (vec_len published.new + length plan.now.done.published ≤ vec_capacity published.new) }
    ensures copies { OnOk result ((m : Member) → slice_get members.now place ≡ Some m
        → copies.new ≡ copies.old ++ copies_of members.now place m plan.now.done.sends) }
    ensures err { OnErr result (copies.new ≡ copies.old) }
{
    published.reserve(plan.done().published.len())?;
    let member = members.at(place);
    let sends = plan.done().sends.as_slice();
    let mut more = copies_of(alloc, members.as_slice(), place, member, sends)?;
    copies.add(&mut more)
}

/// The plan, once there is room for it.
fn with_room(
    alloc: Global,
    members: &Members,
    place: usize,
    plan: Plan,
    published: &mut Vec<Publication>,
    copies: &mut Copies,
) -> Result<Plan, NoMemory>
    requires there { place < length members.now }
    requires ports { All (λ m. ArePorts m.router.ports) members.now }
    ensures plan { IfOk result (λ planned. planned ≡ plan) }
    ensures published { published.new.items ≡ published.old.items }
    ensures publications_fit { OnOk result (vec_len published.new + length plan.done.published ≤ vec_capacity published.new) }
    ensures copies { OnOk result ((m : Member) → slice_get members.now place ≡ Some m
        → copies.new ≡ copies.old ++ copies_of members.now place m plan.done.sends) }
    ensures err { OnErr result (copies.new ≡ copies.old) }
{
    if let Err(error) = make_room(alloc, members, place, &plan, published, copies) {
        // An exit that drops a plan is dear to prove, and a call is not.
        drop(plan);
        return Err(error);
    }
    Ok(plan)
}

/// Does what was planned for the router at a place, with what changes beside it, and records what it published and the
/// event. There is room. Never allocates.
fn settle(
    members: &mut Members,
    published: &mut Vec<Publication>,
    trace: &mut Trace,
    event: WEvent,
    beside: Beside,
    place: usize,
    plan: Plan,
) -> Effect
    requires there { place < length members.old }
    requires publications_fit { vec_len published.old + length plan.done.published ≤ vec_capacity published.old }
    ensures members { (m : Member) → slice_get members.old place ≡ Some m
        → members.new ≡ slice_set members.old place (with_beside beside (record m { router = plan.state })) }
    ensures published { published.new.items ≡ published.old.items ++ plan.done.published }
    ensures trace { trace.new ≡ trace.old ++ result.traced ∷ [] }
    ensures entry { result.traced ≡ record { event = event; words = plan.done.words } }
    ensures notes { result.notes ≡ plan.done.notes }
{
    let Done {
        notes,
        published: more,
        words,
        ..
    } = members.commit(place, plan, beside);
    published.append(&mut more.into_vec()).unwrap();
    let traced = Traced { event, words };
    trace.enter(&traced);
    Effect { notes, traced }
}

impl Parts {
    /// What an event at the router of a place would do; nothing changes.
    pub(crate) fn plan<D: Draw>(
        &self,
        alloc: Global,
        place: usize,
        event: &Event<'_>,
        draw: &mut D,
    ) -> Result<Plan, NoMemory>
        requires there { place < length self.now.members }
        requires sound { IsSoundWorld self.now }
        ensures { IfOk result (IsPlanned place (plain_event event.now) (D.words draw.old) (D.words draw.new) self.now) }
    {
        let member = self.members.at(place);
        member.router.plan(alloc, event, self.moment.get(), draw)
    }

    /// Does what was planned for the router at a place, with what changes beside it, or nothing.
    pub(crate) fn finish(
        &mut self,
        alloc: Global,
        event: WEvent,
        beside: Beside,
        place: usize,
        plan: Plan,
    ) -> Result<Effect, NoMemory>
        requires there { place < length self.old.members }
        requires sound { IsSoundWorld self.old }
        ensures world { OnOk result ((m : Member) → slice_get self.old.members place ≡ Some m
            → self.new ≡ entered (record { event = event; words = plan.done.words }) (acted (with_beside beside) place m plan.state plan.done self.old)) }
        ensures traced { IfOk result (λ happened. self.new.trace ≡ self.old.trace ++ happened.traced ∷ []) }
        ensures notes { IfOk result (λ happened. happened.notes ≡ plan.done.notes) }
        ensures err { OnErr result (self.new ≡ self.old) }
    {
        let plan = with_room(
            alloc,
            &self.members,
            place,
            plan,
            &mut self.published.items,
            &mut self.copies,
        )?;
        Ok(settle(
            &mut self.members,
            &mut self.published.items,
            &mut self.trace,
            event,
            beside,
            place,
            plan,
        ))
    }
}
