ghost use Rattle.std.specs.Prelude.{◌≡◌, ◌≤◌, ◌^◌, ◌⊎◌, [], ◌∷◌, nat_lt, length, IfOk, IfSome, OnOk, OnErr, ◌<◌, Ok, All};
ghost use Rattle.hn_base.specs.Caps.{plain_caps};
ghost use Rattle.hn_assign.specs.Gathered.{AreAdvertised};
ghost use Rattle.hn_base.specs.Words.{Took};
ghost use Rattle.hn_own.specs.Ports.{is_attached, endpoints_of};
ghost use Rattle.hn_rules.specs.Nodes.{leaves_of, view_of};
ghost use Rattle.hn_own.specs.Own.{AreFew};
ghost use Rattle.hn_own.specs.OwnPrefixes.{may_delegate};
ghost use Rattle.hn_own.specs.Addresses.{may_address};
ghost use Rattle.hn_own.specs.Posts.{posts_of};
ghost use Rattle.hn_rules.specs.Assigning.{AreAsked};
ghost use Rattle.hn_rules.specs.Seen.{seen_by, IsElectedAt};
ghost use Rattle.hn_data.specs.View.{plain_view};
ghost use Rattle.hn_deleg.specs.Used.{AreUsable};
ghost use Rattle.hn_own.specs.HeldPairs.{AreHeldPairs, no_pairs};
ghost use Rattle.hn_link.specs.CommonLink.{IsCommonLink};
ghost use Rattle.hn_rules.specs.Done.{nothing};
ghost use Rattle.hn_rules.specs.Due.{IsNextDue, IsUndueUntil};
ghost use Rattle.hn_rules.specs.Lasting.{LastsBefore};
ghost use Rattle.hn_rules.specs.Router.{IsRouter};
ghost use Rattle.hn_rules.specs.Idle.{IsIdleTick};
ghost use Rattle.hn_rules.specs.Router.{IsRouter};
ghost use Rattle.hn_rules.specs.Rules.{begun_at};
ghost use Rattle.hn_rules.specs.Undue.{at_moment};
ghost use Rattle.hn_router.specs.Act.{plain_event, Tick, Happened, HasResults, IsEvent, IsDueAfter};
ghost use Rattle.hn_router.specs.New.{no_caps, IsNew};
ghost use Rattle.hn_router.specs.Plan.{changed};
ghost use Rattle.hn_rules.specs.Passing.{after_passing};
ghost use Rattle.hn_router.specs.Sends.{IsShortSend};

use crate::act::{event_in_range, event_of_bytes, run};
use crate::due::{due_after, is_tick};
use crate::event::Event;
use crate::laws::{event_has_a_result, new_is_router, router_stays, sends_are_short};
use hn_assign::{AdvertisedPrefixes, Assigned, Held, Wishes, gather};
use hn_base::{
    Caps, Endpoints, EpId, Letter, LinkLength, Moment, NoMemory, NodeId, NodeIds, Sequence, Shared,
};
use hn_data::{Entry, NodeData, View};
use hn_deleg::{Delegated, used};
use hn_dncp::Port;
use hn_hash::{Leaf, Part, network_of};
use hn_io::Draw;
use hn_link::{common, elected};
use hn_own::{Addresses, OwnData, OwnItems, OwnPrefixes, Ports};
use hn_prefix::Prefix;
use hn_rules::{
    Done, HeldPairs, Origin, Passing, Present, Running, State, idle_is_undue, idle_until_due,
    idle_while_undue, passing_keeps_undue, router_stays_later, rules_have_one_result,
    undue_is_idle, view_is_a_network,
};
use hn_store::{LIMIT, Table};
use std::alloc::Global;
use std::marker::Model;

/// A home router. Contracts see its fields; what holds of a router after each event is a fact of the type.
#[derive(Drop)]
pub struct Router {
    state: State,
    /// Where this is after the router's moment, each tick before it does nothing. It is the `due` of the state, which is
    /// forgotten where an arrival is let pass: this is kept then.
    undue_until: Moment,
}

impl Model for Router {
    ghost use Rattle.hn_rules.specs.declared.state.State.{State};
    ghost use Rattle.hn_router.specs.Kept.{IsKeptUntil};

    ghost Value = { State };

    ghost view = { λ r. r.state };

    ghost invariant = { λ r. IsKeptUntil r.undue_until r.state };
}

/// The next state of a router, which is one, and what came of the event.
#[derive(Drop)]
pub struct Plan {
    state: State,
    done: Done,
}

impl Model for Plan {
    ghost use Rattle.hn_router.specs.Plan.{PlainPlan};
    ghost use Rattle.hn_router.specs.Kept.{IsKeptRouter};

    ghost Value = { PlainPlan };

    ghost view = { λ p. record { state = p.state; done = p.done } };

    ghost invariant = { λ p. IsKeptRouter p.state };
}

impl Plan {
    /// What came of the event. Never allocates.
    pub fn done(&self) -> &Done
        ensures { result.now ≡ self.now.done }
    {
        &self.done
    }
}

// The identifier alone.
fn only(alloc: Global, id: NodeId) -> Result<NodeIds, NoMemory>
    ensures { IfOk result (λ ids. ids ≡ id ∷ []) }
{
    let mut ids = Vec::new(alloc);
    ids.push(id)?;
    Ok(NodeIds::from(ids))
}

// What a router publishes at first, without capabilities, endpoints, prefixes and addresses.
fn first_items(alloc: Global) -> Result<OwnItems, NoMemory>
    ensures caps { IfOk result (λ items. plain_caps items.caps ≡ no_caps) }
    ensures links { IfOk result (λ items. items.links ≡ []) }
    ensures delegated { IfOk result (λ items. items.delegated ≡ []) }
    ensures assigned { IfOk result (λ items. items.assigned ≡ []) }
    ensures addresses { IfOk result (λ items. items.addresses ≡ []) }
    ensures few { IfOk result AreFew }
{
    let caps = Caps {
        m: 0,
        p: 0,
        h: 0,
        l: 0,
    };
    OwnItems::of(
        alloc,
        caps,
        &Ports::new(alloc),
        &OwnPrefixes::new(alloc),
        &HeldPairs::new(alloc),
        &Addresses::new(alloc),
    )
}

// No delegated prefixes, and no assignments and backoffs.
fn no_prefixes(alloc: Global) -> Result<(Shared<OwnPrefixes>, Shared<HeldPairs>), NoMemory>
    ensures delegated { IfOk result (λ lists. lists.0 ≡ []) }
    ensures held { IfOk result (λ lists. lists.1 ≡ no_pairs) }
{
    let delegated = Shared::new(alloc, OwnPrefixes::new(alloc))?;
    let held = Shared::new(alloc, HeldPairs::new(alloc))?;
    Ok((delegated, held))
}

// No endpoints, and no addresses.
fn no_endpoints(alloc: Global) -> Result<(Shared<Ports>, Shared<Addresses>), NoMemory>
    ensures ports { IfOk result (λ lists. lists.0 ≡ []) }
    ensures addresses { IfOk result (λ lists. lists.1 ≡ []) }
{
    let ports = Shared::new(alloc, Ports::new(alloc))?;
    let addresses = Shared::new(alloc, Addresses::new(alloc))?;
    Ok((ports, addresses))
}

// No other nodes, as many at most as the limit says, and the identifier as the only one that is reached.
fn no_others(
    alloc: Global,
    id: NodeId,
    limit: usize,
) -> Result<(Shared<Table>, Shared<NodeIds>), NoMemory>
    requires { (limit ≡ 256) ⊎ (limit ≡ 1024) }
    ensures table { IfOk result (λ nodes. nodes.0 ≡ record { limit = limit; entries = [] }) }
    ensures reach { IfOk result (λ nodes. nodes.1 ≡ id ∷ []) }
{
    let table = Shared::new(alloc, Table::sized(alloc, limit))?;
    let reach = Shared::new(alloc, only(alloc, id)?)?;
    Ok((table, reach))
}

// A new router's state, with its node data, and as many other nodes at most as the limit says.
fn new_state(
    alloc: Global,
    id: NodeId,
    now: Moment,
    limit: usize,
    own: OwnData,
) -> Result<State, NoMemory>
    requires in_range { now ≤ 2 ^ 48 }
    requires sized { (limit ≡ 256) ⊎ (limit ≡ 1024) }
    requires no_links { own.items.links ≡ [] }
    requires no_prefixes { own.items.delegated ≡ [] }
    requires nothing_assigned { own.items.assigned ≡ [] }
    requires no_addresses { own.items.addresses ≡ [] }
    requires born { own.born ≡ now }
    requires no_caps { plain_caps own.items.caps ≡ no_caps }
    ensures { IfOk result (IsNew id limit now) }
{
    let caps = own.items().caps;
    let part = Part {
        number: 1,
        hash: own.hash(),
    };
    let own = Shared::new(alloc, own)?;
    let (delegated, held) = no_prefixes(alloc)?;
    let (ports, addresses) = no_endpoints(alloc)?;
    let (table, reach) = no_others(alloc, id, limit)?;
    Ok(State {
        id,
        number: 1,
        moment: Present::new(now),
        caps,
        own,
        delegated,
        held,
        claimed: false,
        private: None,
        ports,
        addresses,
        table,
        reach,
        net: network_of(&[part]),
        due: 0,
    })
}

// An event runs from where it begins, and the moment is found that the router keeps after it.
fn run_and_find_due<D: Draw>(
    alloc: Global,
    state: &State,
    next: &mut Running,
    event: &Event<'_>,
    now: Moment,
    draw: &mut D,
) -> Result<Moment, NoMemory>
    requires router { IsRouter state.now }
    requires not_before { state.now.moment ≤ now }
    requires begun { next.old ≡ begun_at now state.now }
    ensures ran { OnOk result (IsEvent (plain_event event.now) (begun_at now state.now) next.new) }
    ensures drew { OnOk result (Took (D.words draw.old) next.new.done.words (D.words draw.new)) }
    ensures due { IfOk result (IsDueAfter (plain_event event.now) (begun_at now state.now) next.new) }
{
    router_stays_later();
    run(alloc, next, event, draw)?;
    let due = due_after(alloc, event, now, state, next)?;
    Ok(due)
}

// The state of a router after a tick that does nothing, where nothing is due before a moment, and what came of the tick.
fn rest_to(
    alloc: Global,
    state: &State,
    until: Moment,
    now: Moment,
) -> Result<(State, Done), NoMemory>
    requires in_range { now ≤ 2 ^ 48 }
    requires idle { IsIdleTick now state.now }
    requires undue { IsUndueUntil until (at_moment now state.now) }
    ensures happened { IfOk result (λ r. Happened now Tick state.now r.0 r.1) }
    ensures nothing { IfOk result (λ r. r.1 ≡ nothing) }
{
    let next = Running::begin(alloc, state, now)?;
    let due = next.state.next_due_from(alloc, until)?;
    let Running {
        mut state,
        done,
        ..
    } = next;
    state.due = due;
    Ok((state, done))
}

// The state of a router after an event at a moment, and what came of it. Nothing is due for the router before `until`.
fn run_to<D: Draw>(
    alloc: Global,
    state: &State,
    until: Moment,
    event: &Event<'_>,
    now: Moment,
    draw: &mut D,
) -> Result<(State, Done), NoMemory>
    requires router { IsRouter state.now }
    requires not_before { state.now.moment ≤ now }
    requires in_range { now ≤ 2 ^ 48 }
    requires undue { state.now.moment < until → IsIdleTick state.now.moment state.now × IsUndueUntil until state.now }
    ensures happened { IfOk result (λ r. Happened now (plain_event event.now) state.now r.0 r.1) }
    ensures drew { IfOk result (λ r. Took (D.words draw.old) r.1.words (D.words draw.new)) }
{
    idle_while_undue();
    if is_tick(event) && now < until {
        let (state, done) = rest_to(alloc, state, until, now)?;
        return Ok((state, done));
    }
    let mut next = Running::begin(alloc, state, now)?;
    match run_and_find_due(alloc, state, &mut next, event, now, draw) {
        Ok(due) => {
            let Running {
                mut state,
                done,
                ..
            } = next;
            state.due = due;
            return Ok((state, done));
        }
        Err(error) => {
            drop(next);
            return Err(error);
        }
    }
}

// Before which moment nothing is due once an arrival is let pass at a moment: still this one, if that is not before the
// router's.
fn still_undue(until: Moment, before: Moment, now: Moment) -> Moment
    ensures { 0 < result → (before ≤ now) × (result ≡ until) }
{
    if before <= now { until } else { 0 }
}

impl Router {
    /// A router that begins at a moment, without capabilities, endpoints, delegated and assigned prefixes, a private link
    /// and addresses, and with sequence number 1. It may hold 256 other nodes.
    ///
    /// # Errors
    ///
    /// Out of memory.
    pub fn new(alloc: Global, id: NodeId, now: Moment) -> Result<Router, NoMemory>
        requires { now ≤ 2 ^ 48 }
        ensures { IfOk result (IsNew id 256 now) }
    {
        Router::sized(alloc, id, now, LIMIT)
    }

    /// The same for a router that may hold so many other nodes, 256 or 1,024.
    ///
    /// # Errors
    ///
    /// Out of memory.
    pub fn sized(alloc: Global, id: NodeId, now: Moment, limit: usize) -> Result<Router, NoMemory>
        requires in_range { now ≤ 2 ^ 48 }
        requires sized { (limit ≡ 256) ⊎ (limit ≡ 1024) }
        ensures { IfOk result (IsNew id limit now) }
    {
        new_is_router();
        let items = first_items(alloc)?;
        let own = OwnData::new(alloc, items, now)?;
        let state = new_state(alloc, id, now, limit, own)?;
        Ok(Router {
            state,
            undue_until: 0,
        })
    }

    /// It cannot be that an event has no result. Does nothing: call it to know its law.
    fn has_results(&self, event: &Event<'_>, now: Moment)
        requires { self.now.moment ≤ now }
        ensures { HasResults now (plain_event event.now) self.now }
    {
        let _ = &self.state;
        event_has_a_result();
        event_in_range(event);
        event_of_bytes(event);
    }

    /// What an event would do; the router stays as it is. Each datagram that it sends has at most 65,507 bytes. The
    /// notes are those of `act`. The moment is not before the router's, and at most 2^48 ms. Whether there is memory or
    /// not, it cannot be that the event has no result over a stream of words; with `one_result` it has exactly one.
    ///
    /// # Errors
    ///
    /// Out of memory.
    pub fn plan<D: Draw>(
        &self,
        alloc: Global,
        event: &Event<'_>,
        now: Moment,
        draw: &mut D,
    ) -> Result<Plan, NoMemory>
        requires not_before { self.now.moment ≤ now }
        requires in_range { now ≤ 2 ^ 48 }
        ensures happened { IfOk result (λ plan. Happened now (plain_event event.now) self.now plan.state plan.done) }
        ensures drew { IfOk result (λ plan. Took (D.words draw.old) plan.done.words (D.words draw.new)) }
        ensures short { IfOk result (λ plan. All IsShortSend plan.done.sends) }
        ensures exists { HasResults now (plain_event event.now) self.now }
    {
        self.has_results(event, now);
        router_stays();
        sends_are_short();
        router_stays_later();
        idle_is_undue();
        undue_is_idle();
        event_in_range(event);
        let (state, done) = run_to(alloc, &self.state, self.undue_until, event, now, draw)?;
        Ok(Plan { state, done })
    }

    /// Does what was planned. Never allocates.
    pub fn commit(&mut self, plan: Plan) -> Done
        requires { IsRouter (changed plan self.old) }
        ensures router { self.new ≡ changed plan self.old }
        ensures done { result ≡ plan.done }
    {
        let Plan { state, done } = plan;
        self.undue_until = state.due;
        self.state = state;
        done
    }

    /// A tick before `due_at`, as `act` has it happen: the moment changes, and nothing else. Never allocates.
    pub fn pass(&mut self, now: Moment)
        requires not_before { self.old.moment ≤ now }
        requires in_range { now ≤ 2 ^ 48 }
        requires undue { now < self.old.due }
        ensures router { self.new ≡ at_moment now self.old }
        ensures happened { Happened now Tick self.old self.new nothing }
        ensures idle { IsIdleTick now self.old }
        ensures next { IsNextDue (at_moment now self.old) self.old.due }
    {
        router_stays_later();
        idle_until_due();
        idle_while_undue();
        idle_is_undue();
        undue_is_idle();
        self.state.moment = Present::new(now);
    }

    /// What an event changes at a moment, if it is an arrival that is let pass: a status update by multicast (RFC 7787,
    /// section 4.3) after which at most an endpoint heard the local network state hash. On a link of many routers most
    /// arrivals are such. Nothing comes of it. `None` where more may change. Never allocates.
    pub fn passing(&self, event: &Event<'_>, now: Moment) -> Option<Passing>
        requires not_before { self.now.moment ≤ now }
        requires in_range { now ≤ 2 ^ 48 }
        ensures happened { IfSome result (λ p. Happened now (plain_event event.now) self.now
            (after_passing p now self.now) nothing) }
        ensures router { IfSome result (λ p. IsRouter (after_passing p now self.now)) }
    {
        router_stays();
        let Event::Arrive {
            endpoint,
            from,
            multicast,
            bytes,
        } = *event
        else {
            return None;
        };
        let origin = Origin {
            endpoint,
            from,
            multicast,
        };
        self.state.passing(&origin, bytes, now)
    }

    /// Lets an arrival pass at a moment, as `passing` answered.
    ///
    /// # Errors
    ///
    /// Out of memory; the router is as before then.
    pub fn let_pass(&mut self, passing: Passing, now: Moment) -> Result<(), NoMemory>
        requires in_range { now ≤ 2 ^ 48 }
        requires router { IsRouter (after_passing passing now self.old) }
        ensures ok { OnOk result (self.new ≡ after_passing passing now self.old) }
        ensures err { OnErr result (self.new ≡ self.old) }
    {
        passing_keeps_undue();
        let until = still_undue(self.undue_until, self.state.moment.get(), now);
        self.state.let_pass(passing, now)?;
        self.undue_until = until;
        Ok(())
    }

    /// An event happens to the router at a moment that is not before its own, and at most 2^48 ms. Each datagram that
    /// it sends has at most 65,507 bytes. A tick before `due_at` takes no memory, and only the moment changes. After a
    /// tick that does nothing `due_at` is the moment at which something is next due. Whether there is memory or not, it
    /// cannot be that the event has no result over a stream of words; with `one_result` it has exactly one.
    ///
    /// The notes, in order: `Refused` exactly if the event is refused; then there is no other, and but for the moment
    /// and `due_at`, which is 0, the router is as before. Of an arrival that is not refused, `Far` exactly if its
    /// source is not link-local; else `Malformed` exactly if the bytes are no list of TLVs, with their first fault. Of
    /// a list of TLVs, `Ignored` exactly for each TLV that the item table refuses, with its cause, and for each Node
    /// Endpoint that is refused, with 7, 6 or 5; `PeersFull` exactly if an unknown sender is greeted by unicast at an
    /// endpoint with 64 peers; and for each Node State one note, `Own` exactly if the table answers that it claims the
    /// own identifier, and else `Took` with the answer.
    ///
    /// # Errors
    ///
    /// Out of memory; the router is as before then. A tick before `due_at` has none.
    pub fn act<D: Draw>(
        &mut self,
        alloc: Global,
        event: &Event<'_>,
        now: Moment,
        draw: &mut D,
    ) -> Result<Done, NoMemory>
        requires not_before { self.old.moment ≤ now }
        requires in_range { now ≤ 2 ^ 48 }
        ensures happened { IfOk result (λ done. Happened now (plain_event event.now) self.old self.new done) }
        ensures drew { IfOk result (λ done. Took (D.words draw.old) done.words (D.words draw.new)) }
        ensures short { IfOk result (λ done. All IsShortSend done.sends) }
        ensures err { OnErr result (self.new ≡ self.old) }
        ensures exists { HasResults now (plain_event event.now) self.old }
        ensures undue { plain_event event.now ≡ Tick → now < self.old.due
            → (result ≡ Ok nothing) × (self.new ≡ at_moment now self.old) × (draw.new ≡ draw.old) }
        ensures next { IfOk result (λ done. plain_event event.now ≡ Tick → IsIdleTick now self.old
            → IsNextDue self.new self.new.due) }
    {
        self.has_results(event, now);
        rules_have_one_result();
        if is_tick(event) && now < self.due_at() {
            self.pass(now);
            return Ok(Done::new(alloc));
        }
        if let Some(passing) = self.passing(event, now) {
            self.let_pass(passing, now)?;
            return Ok(Done::new(alloc));
        }
        let plan = self.plan(alloc, event, now, draw)?;
        Ok(self.commit(plan))
    }

    /// Each tick before this moment does nothing. Where it is after the router's moment, it is the first after that at which
    /// something is due: a peer falls silent, a lifetime ends, data grow old, a lost node is forgotten, a backoff or a mark of
    /// application is due, an interval fires or ends, or a keep-alive is to be sent. It is 2^49 where none of this comes
    /// before. Never allocates.
    pub fn due_at(&self) -> Moment
        ensures due { result ≡ self.now.due }
        ensures kept { self.now.moment < result → IsIdleTick self.now.moment self.now × IsNextDue self.now result }
    {
        self.state.due
    }

    /// The first moment at which something ends that the router keeps or sees: one of its own delegated prefixes, a
    /// lifetime that it sees announced, or that node data are young (2^32 ms without 2^16, which are 49 days). Before it
    /// nothing of this ends.
    ///
    /// # Errors
    ///
    /// Out of memory.
    pub fn lasts_before(&self, alloc: Global) -> Result<Moment, NoMemory>
        ensures { IfOk result (LastsBefore self.now) }
    {
        self.state.lasts_before(alloc)
    }

    /// The identifier. An event may change it: where another node claims it a second time, the router takes a new one and
    /// publishes under that (RFC 7787, section 4.4; RFC 7788, section 3). So ask for it after each event. Never allocates.
    pub fn id(&self) -> NodeId
        ensures { result ≡ self.now.id }
    {
        self.state.id
    }

    /// The sequence number. Never allocates.
    pub fn number(&self) -> u32
        ensures { result ≡ self.now.number }
    {
        self.state.number
    }

    /// The own node data. Never allocates.
    pub fn body(&self) -> &NodeData
        ensures { result.now ≡ self.now.own.body }
    {
        self.state.own.get().body()
    }

    /// The moment of the last event, in milliseconds. What the router tells of lifetimes is as of this moment: let a tick
    /// happen first to know them as of now. Never allocates.
    pub fn moment(&self) -> Moment
        ensures { result ≡ self.now.moment }
    {
        self.state.moment.get()
    }

    /// The nodes that were reachable at the last refresh, in ascending order (RFC 7787, section 4.6). Never allocates.
    pub fn reach(&self) -> &[NodeId]
        ensures { result.now ≡ self.now.reach }
    {
        self.state.reach.get().as_slice()
    }

    /// The other nodes that the router holds. Never allocates.
    pub fn table(&self) -> &Table
        ensures { result.now ≡ self.now.table }
    {
        self.state.table.get()
    }

    /// The network state hash of the last refresh (RFC 7787, section 4.1). Never allocates.
    pub fn net(&self) -> [u8; 8]
        ensures { result ≡ self.now.net }
    {
        self.state.net
    }

    /// The moment of the last publication, in milliseconds. Never allocates.
    pub fn born(&self) -> Moment
        ensures { result ≡ self.now.own.born }
    {
        self.state.own.get().born()
    }

    /// Whether an endpoint is attached. Ask before `Arrive` and `Detach`, which are refused at an endpoint that is not
    /// attached, and before `Attach`, which is refused at one that is. After an event that is refused only the moment
    /// is another and `due_at` is 0, and the note is `Refused`. Never allocates.
    pub fn attached(&self, endpoint: EpId) -> bool
        ensures { result ≡ is_attached endpoint self.now.ports }
    {
        self.state.ports.get().has(endpoint)
    }

    /// The endpoints, in ascending order. Never allocates.
    pub fn ports(&self) -> &[Port]
        ensures { result.now ≡ self.now.ports }
    {
        self.state.ports.get().as_slice()
    }

    /// Whether there is room for one more endpoint: the router has fewer than 16. Ask before `Attach`, which is refused where
    /// there is none. Never allocates.
    pub fn has_room(&self) -> bool
        ensures { result ≡ nat_lt (length self.now.ports) 16 }
    {
        self.state.ports.get().has_room()
    }

    /// Whether a delegated prefix may be added: the router has it already, or fewer than eight. Ask before `External`, which is
    /// refused where it may not. Never allocates.
    pub fn may_have(&self, prefix: &Prefix) -> bool
        ensures { result ≡ may_delegate prefix.now self.now.delegated }
    {
        self.state.delegated.get().may_have(prefix)
    }

    /// Whether a list may be the own addresses: strictly ascending, at most 64, each of an attached endpoint. Ask before
    /// `Addresses`, which is refused where it may not. Never allocates.
    pub fn may_address(&self, list: &[(EpId, u128)]) -> bool
        ensures { result ≡ may_address list.now self.now.ports }
    {
        self.state.ports.get().may_address(list)
    }

    /// The length of the prefixes of its private link, 1 to 64 bits; `None` if and only if it has none. Never
    /// allocates.
    pub fn private(&self) -> Option<LinkLength>
        ensures { result ≡ self.now.private }
    {
        self.state.private
    }

    /// Its addresses, each with its endpoint, in strictly ascending order. Never allocates.
    pub fn addresses(&self) -> &[(EpId, u128)]
        ensures { result.now ≡ self.now.addresses }
    {
        self.state.addresses.get().as_slice()
    }

    /// Its assignments and backoffs. Never allocates.
    pub fn held(&self) -> &Held
        ensures { result.now ≡ self.now.held }
    {
        self.state.held.get().get()
    }

    /// Its assignments, in ascending order of their pairs.
    pub(crate) fn assigned(&self) -> &[Assigned]
        ensures value { result.now ≡ self.now.held.assigned }
        ensures kept { AreHeldPairs self.now.held }
    {
        self.state.held.get().get().assigned.as_slice()
    }

    /// What the router sees: the nodes that were reachable at the last refresh, itself among them, in ascending order of
    /// their identifiers, each with its node data (RFC 7787, section 4.6).
    ///
    /// # Errors
    ///
    /// Out of memory.
    pub fn nodes(&self, alloc: Global) -> Result<Vec<Entry>, NoMemory>
        ensures { IfOk result (λ nodes. nodes.items ≡ view_of self.now) }
    {
        self.state.seen(alloc)
    }

    /// The view of these nodes, as of the router's moment. Never allocates.
    pub(crate) fn view<'a>(&self, nodes: &'a [Entry]) -> View<'a>
        requires { nodes.now ≡ view_of self.now }
        ensures { plain_view result ≡ seen_by self.now }
    {
        self.state.view(nodes)
    }

    /// The delegated prefixes that the router uses, in ascending order, at its moment (RFC 7788, sections 6.2 and 6.3).
    ///
    /// # Errors
    ///
    /// Out of memory.
    pub fn used(&self, alloc: Global) -> Result<Sequence<Delegated>, NoMemory>
        ensures { IfOk result (AreUsable (seen_by self.now)) }
    {
        let nodes = self.state.seen(alloc)?;
        used(alloc, &self.state.view(nodes.as_slice()))
    }

    /// The Common Link of an endpoint, in ascending order (RFC 7788, section 6.1).
    ///
    /// # Errors
    ///
    /// Out of memory.
    pub fn common(&self, alloc: Global, e: EpId) -> Result<Endpoints, NoMemory>
        ensures { IfOk result (IsCommonLink (seen_by self.now) e.0) }
    {
        view_is_a_network();
        let nodes = self.state.seen(alloc)?;
        common(alloc, &self.state.view(nodes.as_slice()), e)
    }

    /// The advertised prefixes as the router sees them, in no order, at its moment (RFC 7695, section 2; RFC 7788, section
    /// 10.3).
    ///
    /// # Errors
    ///
    /// Out of memory.
    pub fn advertised(&self, alloc: Global) -> Result<AdvertisedPrefixes, NoMemory>
        ensures { IfOk result (AreAdvertised (seen_by self.now) self.now.held.assigned) }
    {
        view_is_a_network();
        let nodes = self.state.seen(alloc)?;
        gather(alloc, &self.state.view(nodes.as_slice()), self.held())
    }

    /// Who is elected for a capability on the Common Link of an endpoint; `None` if and only if nobody is (RFC 7788,
    /// sections 4 and 6.1).
    ///
    /// # Errors
    ///
    /// Out of memory.
    pub fn elected(
        &self,
        alloc: Global,
        e: EpId,
        letter: Letter,
    ) -> Result<Option<NodeId>, NoMemory>
        ensures { IfOk result (IsElectedAt self.now e letter) }
    {
        let nodes = self.state.seen(alloc)?;
        self.elected_in(alloc, &self.state.view(nodes.as_slice()), e, letter)
    }

    /// The same, in what the router sees.
    pub(crate) fn elected_in(
        &self,
        alloc: Global,
        view: &View<'_>,
        e: EpId,
        letter: Letter,
    ) -> Result<Option<NodeId>, NoMemory>
        requires { plain_view view.now ≡ seen_by self.now }
        ensures { IfOk result (IsElectedAt self.now e letter) }
    {
        let _ = &self.state;
        view_is_a_network();
        let common = common(alloc, view, e)?;
        Ok(elected(view, common.as_slice(), letter))
    }

    /// The endpoints that are attached, in ascending order.
    ///
    /// # Errors
    ///
    /// Out of memory.
    pub fn endpoints(&self, alloc: Global) -> Result<Vec<EpId>, NoMemory>
        ensures { IfOk result (λ endpoints. endpoints.items ≡ endpoints_of self.now.ports) }
    {
        self.state.ports.get().endpoints(alloc)
    }

    /// Its posts, in ascending order: the attached endpoints and, where it has a private link, endpoint 0.
    ///
    /// # Errors
    ///
    /// Out of memory.
    pub fn posts(&self, alloc: Global) -> Result<Vec<EpId>, NoMemory>
        ensures { IfOk result (λ posts. posts.items ≡ posts_of self.now.private self.now.ports) }
    {
        self.state.ports.get().posts(alloc, self.state.private)
    }

    /// What the router asks: a wish for each pair of a usable delegated prefix and a post, in ascending order.
    ///
    /// # Errors
    ///
    /// Out of memory.
    pub fn wishes(&self, alloc: Global, usable: &[Delegated]) -> Result<Wishes, NoMemory>
        requires { AreUsable (seen_by self.now) usable.now }
        ensures { IfOk result (AreAsked self.now usable.now) }
    {
        self.state.wishes(alloc, usable)
    }

    /// The leaves of the nodes that were reachable at the last refresh, in ascending order of their identifiers (RFC 7787,
    /// section 4.1).
    ///
    /// # Errors
    ///
    /// Out of memory.
    pub fn leaves(&self, alloc: Global) -> Result<Vec<Leaf>, NoMemory>
        ensures { IfOk result (λ leaves. leaves.items ≡ leaves_of self.now) }
    {
        self.state.leaves(alloc)
    }

    /// What holds of each router holds of this one. Does nothing: call it to know its law.
    pub fn is_router(&self)
        ensures { IsRouter self.now }
    {
        let _ = &self.state;
    }
}
