//! The TLVs of a datagram: a rule for each kind, and a refresh after each TLV.

ghost use Rattle.std.specs.Prelude.{◌≡◌, ℕ, ◌+◌, ◌≤◌, List, [], ◌++◌, length, vec_len, vec_capacity, IfOk, OnOk, map, true, false};
ghost use Rattle.hn_tlv.specs.Grammar.{PlainTlv, IsTlvList, HasTlvs};
ghost use Rattle.hn_tlv.specs.View.{plain};
ghost use Rattle.hn_typed.specs.View.{plain_item};
ghost use Rattle.hn_base.specs.Rules.{Then};
ghost use Rattle.hn_rules.specs.Rules.{Ran};
ghost use Rattle.hn_rules.specs.KnownReach.{KnowsReach};
ghost use Rattle.hn_rules.specs.Refresh.{IsRefresh};
ghost use Rattle.hn_rules.specs.Router.{IsRefreshed, IsJustRefreshed, IsUntouched};
ghost use Rattle.hn_rules.specs.Arrival.{IsItemRule, IsTlvRule, IsTlvs, IsAnswering, IsArrival};

use crate::answers::Answer;
use crate::done::Note;
use crate::reaching::{NOTHING, Touched};
use crate::running::{Origin, Running};
use hn_base::{Bytes, NoMemory, Sequence};
use hn_dncp::pack;
use hn_io::Draw;
use hn_store::State as CarriedState;
use hn_tlv::{Tlv, fault_after_list, first_fault_is_unique, list_grows, list_is_unique, next};
use hn_typed::{Item, read};
use std::alloc::Global;
use std::mem::replace;

mod claim;
mod network_state;
mod node_endpoint;
mod node_state;
mod passing;
mod requests;

pub use passing::Passing;

impl Running {
    /// The rule of an item: what it touched that a refresh reads.
    fn item<D: Draw>(
        &mut self,
        alloc: Global,
        from: &Origin,
        item: &Item<'_>,
        draw: &mut D,
    ) -> Result<Touched, NoMemory>
        ensures ran { OnOk result (Ran (IsItemRule from.now (plain_item item.now))
            (D.words draw.old) (D.words draw.new) self.old self.new) }
        ensures untouched { IfOk result (λ touched. touched.any ≡ false → IsUntouched self.old.state self.new.state) }
        ensures known { IfOk result (λ touched. touched.any ≡ true → touched.links ≡ false
            → KnowsReach self.old.state → KnowsReach self.new.state) }
    {
        let _kept = self.state.ports.get().as_slice();
        match *item {
            Item::NodeEndpoint { node, endpoint, .. } => {
                let touched = self.node_endpoint(alloc, from, node, endpoint)?;
                Ok(Touched {
                    any: touched,
                    links: touched,
                })
            }
            Item::RequestNetwork { .. } => {
                self.request_network(alloc)?;
                Ok(NOTHING)
            }
            Item::RequestNode { node, .. } => {
                self.request_node(alloc, node)?;
                Ok(NOTHING)
            }
            Item::NetworkState { hash, .. } => {
                self.network_state(alloc, from, hash)?;
                Ok(NOTHING)
            }
            Item::NodeState {
                node,
                number,
                age,
                hash,
                body,
            } => {
                let carried = CarriedState {
                    node,
                    number,
                    age,
                    hash,
                    body,
                };
                self.node_state(alloc, &carried, draw)
            }
            _ => Ok(NOTHING),
        }
    }

    /// A TLV: the rule of its item; one that the item table refuses is noted. What it touched that a refresh reads.
    fn tlv<D: Draw>(
        &mut self,
        alloc: Global,
        from: &Origin,
        tlv: &Tlv<'_>,
        draw: &mut D,
    ) -> Result<Touched, NoMemory>
        ensures ran { OnOk result (Ran (IsTlvRule from.now (plain tlv.now))
            (D.words draw.old) (D.words draw.new) self.old self.new) }
        ensures untouched { IfOk result (λ touched. touched.any ≡ false → IsUntouched self.old.state self.new.state) }
        ensures known { IfOk result (λ touched. touched.any ≡ true → touched.links ≡ false
            → KnowsReach self.old.state → KnowsReach self.new.state) }
    {
        match read(tlv) {
            Ok(item) => self.item(alloc, from, &item, draw),
            Err(fault) => {
                self.note(Note::Ignored {
                    kind: fault.kind,
                    why: fault.why,
                })?;
                Ok(NOTHING)
            }
        }
    }

    /// A TLV, and a refresh after it. Where the last refresh was at this moment and the TLV touches nothing that a refresh
    /// reads, another changes nothing and is left out.
    fn tlv_and_refresh<D: Draw>(
        &mut self,
        alloc: Global,
        from: &Origin,
        tlv: &Tlv<'_>,
        fresh: bool,
        draw: &mut D,
    ) -> Result<(), NoMemory>
        requires refreshed { IsRefreshed self.old.state }
        requires fresh { fresh ≡ true → IsJustRefreshed self.old.state }
        ensures ran { OnOk result (Ran (Then (IsTlvRule from.now (plain tlv.now)) IsRefresh)
            (D.words draw.old) (D.words draw.new) self.old self.new) }
        ensures fresh { OnOk result (IsJustRefreshed self.new.state) }
    {
        let touched = self.tlv(alloc, from, tlv, draw)?;
        if fresh && !touched.any {
            return Ok(());
        }
        self.refresh_after(alloc, touched, draw)
    }

    /// The TLVs of a datagram, in order.
    fn tlvs<D: Draw>(
        &mut self,
        alloc: Global,
        from: &Origin,
        bytes: &[u8],
        draw: &mut D,
    ) -> Result<(), NoMemory>
        requires list { HasTlvs bytes.now }
        requires refreshed { IsRefreshed self.old.state }
        ensures { OnOk result ((tlvs : List PlainTlv) → IsTlvList tlvs bytes.now
            → Ran (IsTlvs from.now tlvs) (D.words draw.old) (D.words draw.new) self.old self.new) }
    {
        list_grows();
        list_is_unique();
        fault_after_list();
        first_fault_is_unique();
        let mut place = 0;
        let mut fresh = false;
        while let Ok(Some((tlv, after))) = next(bytes, place) {
            self.tlv_and_refresh(alloc, from, &tlv, fresh, draw)?;
            place = after;
            fresh = true;
        }
        Ok(())
    }

    /// The TLVs of the answers, which are handed over. There is room.
    fn hand_over(&mut self, alloc: Global, tlvs: &mut Vec<Bytes>)
        requires room { vec_len tlvs.old + length self.old.answers ≤ vec_capacity tlvs.old }
        ensures tlvs { tlvs.new.items ≡ tlvs.old.items ++ map (λ a. a.tlv) self.old.answers }
        ensures rest { self.new ≡ record self.old { answers = [] } }
    {
        let answers = replace(&mut self.answers, Sequence::new(alloc));
        for answer in answers.into_vec() {
            let Answer { tlv, .. } = answer;
            tlvs.push_reserved(tlv);
        }
    }

    /// The answers are sent to the source, and there are none after it.
    fn send_answers(&mut self, alloc: Global, from: &Origin) -> Result<(), NoMemory>
        ensures { OnOk result (IsAnswering from.now self.old self.new) }
    {
        if self.answers.is_empty() {
            return Ok(());
        }
        let mut tlvs = Vec::with_capacity(alloc, self.answers.len())?;
        self.hand_over(alloc, &mut tlvs);
        let datagrams = pack(alloc, self.state.id, from.endpoint, tlvs.as_slice())?;
        self.send(from.endpoint, Some(from.from), datagrams)
    }

    /// A datagram that is a list of TLVs arrives.
    ///
    /// # Errors
    ///
    /// Out of memory. No clause says what the `Running` is then.
    pub fn arrival<D: Draw>(
        &mut self,
        alloc: Global,
        from: &Origin,
        bytes: &[u8],
        draw: &mut D,
    ) -> Result<(), NoMemory>
        requires list { HasTlvs bytes.now }
        requires refreshed { IsRefreshed self.old.state }
        ensures { OnOk result ((tlvs : List PlainTlv) → IsTlvList tlvs bytes.now
            → Ran (IsArrival from.now tlvs) (D.words draw.old) (D.words draw.new) self.old self.new) }
    {
        self.tlvs(alloc, from, bytes, draw)?;
        self.send_answers(alloc, from)
    }
}
