ghost use Rattle.std.specs.Prelude.{◌≡◌, ◌≢◌, ◌↔◌, ◌≤◌, ℕ, length, IsTrue, IsSome, IfOk, OnOk, OnErr, IfSome, IfNone, None, Some};
ghost use Rattle.std.specs.Bool.{OnTrue, OnFalse};
ghost use Rattle.hn_tlv.specs.Grammar.{HasTlvs};
ghost use Rattle.hn_hash.specs.Hash.{hash_of};
ghost use Rattle.hn_store.specs.Nodes.{held, put};
ghost use Rattle.hn_store.specs.Acceptance.{plain_state, held_part, known_of, CarriesData, HasWrongHash, IsStale, HasNoRoom, stored_from, entries_after, Accepts};
ghost use Rattle.hn_store.specs.AcceptanceParts.{HasRightHash, IsPassed, IsOfData, IsOfNumber};

use crate::place::place_of;
use crate::state::{OwnLeaf, State, Took};
use crate::stored::{HeldNode, Stored};
use crate::table::Table;
use crate::young::age_undue_until;
use hn_base::{Moment, NoMemory, NodeId, older};
use hn_data::NodeData;
use hn_hash::{Part, h, same_hash};
use hn_tlv::{ListFault, first_fault_is_unique};
use std::alloc::Global;

/// How many bytes the data of a node have at most.
pub const BODY_LIMIT: usize = 60_000;

/// Whether a state says nothing newer than what is known of its node.
fn is_stale(known: Option<Part>, state: &State<'_>) -> bool
    ensures { IsTrue result ↔ IsStale known (plain_state state.now) }
{
    match known {
        Some(known) => {
            !older(known.number, state.number)
                && !(known.number == state.number && !same_hash(known.hash, state.hash))
        }
        None => false,
    }
}

/// Whether a state carries data, where this is the hash of its bytes.
fn carries_data(state: &State<'_>, hash: [u8; 8]) -> bool
    requires { hash ≡ hash_of state.now.body.now }
    ensures { IsTrue result ↔ CarriesData (plain_state state.now) }
{
    !state.body.is_empty() || same_hash(state.hash, hash)
}

/// Whether a state carries data that have another hash than it says, where this is the hash of its bytes.
fn has_wrong_hash(state: &State<'_>, hash: [u8; 8]) -> bool
    requires { hash ≡ hash_of state.now.body.now }
    ensures wrong { OnTrue result (HasWrongHash (plain_state state.now)) }
    ensures right { OnFalse result (HasRightHash (plain_state state.now)) }
{
    carries_data(state, hash) && !same_hash(state.hash, hash)
}

impl Table {
    /// What is known of a node: the router's own number and hash, or those held; `None` if and only if the node is
    /// neither the router's own nor held. Never allocates.
    pub fn known_of(&self, own: &OwnLeaf, node: NodeId) -> Option<Part>
        ensures { result ≡ known_of self.now.entries own.now node.0 }
    {
        if node == own.id {
            return Some(Part {
                number: own.number,
                hash: own.hash,
            });
        }
        match self.get(node) {
            Some(stored) => Some(stored.part()),
            None => None,
        }
    }

    /// Whether a node of which this is known is not held, and there is no room for it.
    fn is_full(&self, known: Option<Part>) -> bool
        ensures { IsTrue result ↔ HasNoRoom self.now known }
    {
        known.is_none() && self.len() == self.limit()
    }

    /// The answer to a state that is not looked into: it is stale, there is no room for its node, or it is too long.
    /// Then the table stays as it is. `None` if and only if the state is to be looked into. Never allocates.
    pub fn refusal(&self, own: &OwnLeaf, state: &State<'_>) -> Option<Took>
        ensures accepts { IfSome result (λ took. (now : ℕ) → Accepts self.now own.now (plain_state state.now) now self.now took) }
        ensures refused { IsSome result → ¬ (IsPassed self.now own.now (plain_state state.now)) }
        ensures passed { IfNone result (IsPassed self.now own.now (plain_state state.now)) }
    {
        let known = self.known_of(own, state.node);
        if is_stale(known, state) {
            return Some(Took::Stale);
        }
        if self.is_full(known) {
            return Some(Took::Full);
        }
        if state.body.len() > BODY_LIMIT {
            return Some(Took::TooLong);
        }
        None
    }

    /// Holds data in place of what was held of their node.
    fn store(&mut self, state: &State<'_>, body: NodeData, now: Moment) -> Result<(), NoMemory>
        requires same { body ≡ state.now.body.now }
        requires short { length body ≤ 60000 }
        requires listed { HasTlvs body }
        requires hashed { state.now.hash ≡ hash_of body }
        requires room { held self.old.entries state.now.node.0 ≡ None → length self.old.entries ≢ self.old.limit }
        ensures ok { OnOk result (self.new ≡ record self.old { entries = put state.now.node.0 (stored_from (plain_state state.now) now (held self.old.entries state.now.node.0)) self.old.entries }) }
        ensures err { OnErr result (self.new ≡ self.old) }
    {
        let mut stored = Stored {
            number: state.number,
            hash: state.hash,
            age: state.age,
            at: now,
            body,
            lost: None,
        };
        self.young = self.young.min(age_undue_until(state.age, now));
        match place_of(&self.nodes, state.node) {
            Ok(place) => {
                let node = &mut self.nodes[place];
                stored.lost = node.stored.lost;
                node.stored = stored;
                Ok(())
            }
            Err(place) => {
                let node = HeldNode {
                    id: state.node,
                    stored,
                };
                self.nodes.insert(place, node)?;
                Ok(())
            }
        }
    }

    /// Reads the data of a state, which have the hash that it says, and holds them.
    fn keep(&mut self, alloc: Global, state: &State<'_>, now: Moment) -> Result<Took, NoMemory>
        requires short { length state.now.body.now ≤ 60000 }
        requires hashed { state.now.hash ≡ hash_of state.now.body.now }
        requires room { held self.old.entries state.now.node.0 ≡ None → length self.old.entries ≢ self.old.limit }
        ensures took { IfOk result (IsOfData (plain_state state.now)) }
        ensures after { IfOk result (λ took. self.new ≡ record self.old { entries = entries_after self.old.entries (plain_state state.now) now took }) }
        ensures err { OnErr result (self.new ≡ self.old) }
    {
        first_fault_is_unique();
        let body = match NodeData::from_bytes(alloc, state.body) {
            Ok(body) => body,
            Err(ListFault::Malformed(_)) => return Ok(Took::BadBody),
            Err(ListFault::NoMemory) => return Err(NoMemory),
        };
        self.store(state, body, now)?;
        Ok(Took::Kept)
    }

    /// Gives a held node the number and the age of a state without data, where the hash is the one that is held.
    fn renumber(&mut self, state: &State<'_>, now: Moment) -> Took
        ensures took { IsOfNumber (held_part self.old.entries state.now.node.0) (plain_state state.now) result }
        ensures after { self.new ≡ record self.old { entries = entries_after self.old.entries (plain_state state.now) now result } }
    {
        let Ok(place) = place_of(&self.nodes, state.node) else {
            return Took::Ask;
        };
        self.young = self.young.min(age_undue_until(state.age, now));
        let node = &mut self.nodes[place];
        if !same_hash(node.stored.hash, state.hash) {
            return Took::Ask;
        }
        node.stored.renumber(state, now);
        Took::Renumbered
    }

    /// Takes a node state that arrives (RFC 7787, section 4.4). The answer is that of the first line of the rule
    /// (`IsAnswer`) whose condition holds. In this order they are `Stale`, `Full`, `TooLong`, `BadHash`, `Own`,
    /// `BadBody`, `Kept` and `Ask`, and else `Renumbered`.
    ///
    /// Beyond reading the data it takes time that grows with the logarithm of the number of nodes, and a node that was
    /// not held moves the entries after its own.
    ///
    /// # Errors
    ///
    /// Out of memory; the table is as it was.
    pub fn take(
        &mut self,
        alloc: Global,
        own: &OwnLeaf,
        state: &State<'_>,
        now: Moment,
    ) -> Result<Took, NoMemory>
        ensures accepts { IfOk result (Accepts self.old own.now (plain_state state.now) now self.new) }
        ensures err { OnErr result (self.new ≡ self.old) }
    {
        if let Some(took) = self.refusal(own, state) {
            return Ok(took);
        }
        let hash = h(state.body);
        if has_wrong_hash(state, hash) {
            return Ok(Took::BadHash);
        }
        if state.node == own.id {
            return Ok(Took::Own);
        }
        if !carries_data(state, hash) {
            return Ok(self.renumber(state, now));
        }
        self.keep(alloc, state, now)
    }
}
