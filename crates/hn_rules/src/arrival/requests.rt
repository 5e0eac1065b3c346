ghost use Rattle.std.specs.Prelude.{◌≡◌, ◌<◌, ◌≤◌, ◌^◌, min, length, map, IfOk, OnOk, Option, Some, None};
ghost use Rattle.std.specs.Option.{option_map};
ghost use Rattle.hn_tlv.specs.Grammar.{spelling};
ghost use Rattle.hn_typed.specs.Item.{PlainItem};
ghost use Rattle.hn_typed.specs.Written.{tlv_of};
ghost use Rattle.hn_rules.specs.Requests.{sent_age, own_state, held_state, state_item, with_some_answer, with_state};
ghost use Rattle.hn_rules.specs.Requests.{IsNetworkRequest, is_reached, request_node};

use crate::answers::Subject;
use crate::nodes::age_at;
use crate::running::Running;
use crate::state::State;
use hn_base::{Bytes, Moment, NoMemory, NodeId};
use hn_data::encode;
use hn_store::Stored;
use hn_typed::Item;
use std::alloc::Global;

/// The age that is sent, in milliseconds, at most 2^32 - 1.
fn sent_age(age: u64) -> u32
    ensures { result ≡ sent_age age }
{
    u32::try_from(age).unwrap_or(u32::MAX)
}

/// The Node State of a held node, with its data or without.
fn held_state(
    alloc: Global,
    with_data: bool,
    now: Moment,
    id: NodeId,
    stored: &Stored,
) -> Result<Bytes, NoMemory>
    requires now_in_range { now ≤ 2 ^ 48 }
    requires short { length stored.now.body ≤ 60000 }
    ensures { IfOk result (λ bytes. bytes ≡ spelling (tlv_of (held_state with_data now id stored.now))) }
{
    let part = stored.part();
    let hash = part.hash;
    let body: &[u8] = if with_data { stored.body.bytes() } else { &[] };
    encode(
        alloc,
        &Item::NodeState {
            node: id,
            number: part.number,
            age: sent_age(age_at(now, stored)),
            hash,
            body,
        },
    )
}

impl State {
    /// The Node State of the own node, with its data or without.
    fn own_state(&self, alloc: Global, with_data: bool) -> Result<Bytes, NoMemory>
        ensures { IfOk result (λ bytes. bytes ≡ spelling (tlv_of (own_state with_data self.now))) }
    {
        let own = self.own.get();
        let body: &[u8] = if with_data { own.body().bytes() } else { &[] };
        encode(
            alloc,
            &Item::NodeState {
                node: self.id,
                number: self.number,
                age: sent_age(self.own_age()),
                hash: own.hash(),
                body,
            },
        )
    }

    /// The Node State of a node that is known.
    fn state_tlv(
        &self,
        alloc: Global,
        with_data: bool,
        id: NodeId,
    ) -> Result<Option<Bytes>, NoMemory>
        ensures { IfOk result (λ tlv. tlv ≡ option_map (λ item. spelling (tlv_of item)) (state_item with_data self.now id)) }
    {
        if id == self.id {
            return Ok(Some(self.own_state(alloc, with_data)?));
        }
        match self.table.get().get(id) {
            Some(stored) => {
                let now = self.moment.get();
                Ok(Some(held_state(alloc, with_data, now, id, stored)?))
            }
            None => Ok(None),
        }
    }

    /// Whether a node is reachable.
    fn is_reached(&self, id: NodeId) -> bool
        ensures { result ≡ is_reached id self.now.reach }
    {
        self.reach.get().as_slice().iter().any(|other| *other == id)
    }
}

impl Running {
    /// An answer comes up, if there is something to say.
    fn answer_some(&mut self, subject: Subject, tlv: Option<Bytes>) -> Result<(), NoMemory>
        ensures { (item : Option PlainItem) → tlv ≡ option_map (λ item. spelling (tlv_of item)) item
            → OnOk result (self.new ≡ with_some_answer subject item self.old) }
    {
        match tlv {
            Some(tlv) => self.answer(subject, tlv),
            None => Ok(()),
        }
    }

    /// A node's state without its data.
    fn answer_state(&mut self, alloc: Global, id: NodeId) -> Result<(), NoMemory>
        ensures { OnOk result (self.new ≡ with_state id self.old) }
    {
        let tlv = self.state.state_tlv(alloc, false, id)?;
        self.answer_some(Subject::NodeState(id), tlv)
    }

    /// Request Network State (RFC 7787, section 7.1.1).
    pub(crate) fn request_network(&mut self, alloc: Global) -> Result<(), NoMemory>
        ensures { OnOk result (IsNetworkRequest self.old self.new) }
    {
        let reach = self.state.reach.clone()?;
        let tlv = encode(
            alloc,
            &Item::NetworkState {
                hash: self.state.net,
                subs: &[],
            },
        )?;
        self.answer(Subject::NetworkState, tlv)?;
        for id in reach.get().as_slice() {
            self.answer_state(alloc, *id)?;
        }
        Ok(())
    }

    /// Request Node State (RFC 7787, section 7.1.2).
    pub(crate) fn request_node(&mut self, alloc: Global, id: NodeId) -> Result<(), NoMemory>
        ensures { OnOk result (self.new ≡ request_node id self.old) }
    {
        if !self.state.is_reached(id) {
            return Ok(());
        }
        let tlv = self.state.state_tlv(alloc, true, id)?;
        self.answer_some(Subject::NodeData(id), tlv)
    }
}
