//! Events at no router: a new router, a new link, the moment, a router that stops, a copy that is dropped.

ghost use Rattle.std.specs.Prelude.{◌≡◌, ◌⊎◌, ◌≤◌, ◌<◌, ◌^◌, ◌++◌, ◌∷◌, [], true, vec_len, vec_capacity, IfOk, OnOk, OnErr, None, Some};
ghost use Rattle.hn_base.specs.Name.{name_text};
ghost use Rattle.hn_world.specs.Names.{router_place};
ghost use Rattle.hn_router.specs.New.{IsNew};
ghost use Rattle.hn_world.specs.declared.event.WEvent.TheVariants as event;
ghost use Rattle.hn_world.specs.Refusal.{refusal};
ghost use Rattle.hn_world.specs.Step.{Step};

use crate::event::{Traced, WEvent};
use crate::limits::table_limit;
use crate::member::Member;
use crate::parts::Parts;
use crate::trace::Trace;
use hn_base::{Moment, Name, NoMemory, NodeId, Sequence, Words};
use hn_router::Router;
use hn_rules::{Present, Publication};
use std::alloc::Global;

/// Enters an event that took no random words in the trace. Answers the entry.
pub(crate) fn enter(trace: &mut Trace, alloc: Global, event: WEvent) -> Traced
    ensures entry { result ≡ record { event = event; words = [] } }
    ensures trace { trace.new ≡ trace.old ++ result ∷ [] }
{
    let traced = Traced {
        event,
        words: Words::new(alloc),
    };
    trace.enter(&traced);
    traced
}

/// Makes room for a router and a publication; nothing is added.
fn make_room(members: &mut Vec<Member>, published: &mut Vec<Publication>) -> Result<(), NoMemory>
    ensures members { members.new.items ≡ members.old.items }
    ensures publications { published.new.items ≡ published.old.items }
    ensures member_fits { OnOk result (vec_len members.new < vec_capacity members.new) }
    ensures publication_fits { OnOk result (vec_len published.new < vec_capacity published.new) }
{
    members.reserve(1)?;
    published.reserve(1)?;
    Ok(())
}

/// A running router without attachments, under its name, and what it publishes first.
fn new_member(
    alloc: Global,
    name: Name,
    id: NodeId,
    now: Moment,
    limit: usize,
) -> Result<(Member, Publication), NoMemory>
    requires in_range { now ≤ 2 ^ 48 }
    requires sized { (limit ≡ 256) ⊎ (limit ≡ 1024) }
    ensures router { IfOk result (λ made. IsNew id limit now made.0.router) }
    ensures member { IfOk result (λ made. made.0 ≡ record { name = name; running = true; router = made.0.router; attachments = [] }) }
    ensures publication { IfOk result (λ made. made.1 ≡ record { id = id; number = 1; body = made.0.router.own.body }) }
{
    let router = Router::sized(alloc, id, now, limit)?;
    let body = router.body().share()?;
    Ok((
        Member {
            name,
            running: true,
            router,
            attachments: Sequence::new(alloc),
        },
        Publication {
            id,
            number: 1,
            body,
        },
    ))
}

impl Parts {
    /// A new running router.
    pub(crate) fn define_router(
        &mut self,
        alloc: Global,
        name: Name,
        id: NodeId,
    ) -> Result<Traced, NoMemory>
        requires accepted { refusal self.old (event.Router name id) ≡ None }
        requires in_range { id.0 < 2 ^ 32 }
        ensures ok { OnOk result (Step (record { event = event.Router name id; words = [] }) [] self.old self.new) }
        ensures traced { IfOk result (λ traced. self.new.trace ≡ self.old.trace ++ traced ∷ []) }
        ensures err { OnErr result (self.new ≡ self.old) }
    {
        make_room(&mut self.members.items, &mut self.published.items)?;
        let limit = table_limit(self.version);
        let (member, publication) = new_member(alloc, name, id, self.moment.get(), limit)?;
        self.members.items.push_reserved(member);
        self.published.items.push_reserved(publication);
        Ok(enter(&mut self.trace, alloc, WEvent::Router { name, id }))
    }

    /// A new link.
    pub(crate) fn define_link(&mut self, alloc: Global, name: Name) -> Result<Traced, NoMemory>
        requires accepted { refusal self.old (event.Link name) ≡ None }
        ensures ok { OnOk result (Step (record { event = event.Link name; words = [] }) [] self.old self.new) }
        ensures traced { IfOk result (λ traced. self.new.trace ≡ self.old.trace ++ traced ∷ []) }
        ensures err { OnErr result (self.new ≡ self.old) }
    {
        self.links.items.push(name)?;
        Ok(enter(&mut self.trace, alloc, WEvent::Link { name }))
    }

    /// The moment.
    pub(crate) fn pass(&mut self, alloc: Global, moment: Moment) -> Traced
        requires accepted { refusal self.old (event.Time moment) ≡ None }
        requires in_range { moment ≤ 2 ^ 48 }
        ensures ok { Step (record { event = event.Time moment; words = [] }) [] self.old self.new }
        ensures traced { self.new.trace ≡ self.old.trace ++ result ∷ [] }
    {
        self.moment = Present::new(moment);
        enter(&mut self.trace, alloc, WEvent::Time { moment })
    }

    /// A router stops, which is at this place.
    pub(crate) fn stop(&mut self, alloc: Global, name: Name, place: usize) -> Traced
        requires placed { router_place (name_text name) self.old ≡ Some place }
        requires accepted { refusal self.old (event.Stop name) ≡ None }
        ensures ok { Step (record { event = event.Stop name; words = [] }) [] self.old self.new }
        ensures traced { self.new.trace ≡ self.old.trace ++ result ∷ [] }
    {
        self.members.stop(place);
        enter(&mut self.trace, alloc, WEvent::Stop { name })
    }

    /// A copy is dropped.
    pub(crate) fn drop_copy(&mut self, alloc: Global, copy: u64) -> Traced
        requires accepted { refusal self.old (event.Drop copy) ≡ None }
        ensures ok { Step (record { event = event.Drop copy; words = [] }) [] self.old self.new }
        ensures traced { self.new.trace ≡ self.old.trace ++ result ∷ [] }
    {
        if self.copy_at(copy).is_none() {
            unreachable!()
        }
        self.copies.take((copy - 1) as usize);
        enter(&mut self.trace, alloc, WEvent::Drop { copy })
    }
}
