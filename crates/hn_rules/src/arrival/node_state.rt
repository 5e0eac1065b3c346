ghost use Rattle.std.specs.Prelude.{◌≡◌, ◌≢◌, [], IfOk, OnOk, true, false};
ghost use Rattle.hn_typed.specs.Item.{RequestNode};
ghost use Rattle.hn_store.specs.declared.state.Took.TheVariants.{Own};
ghost use Rattle.hn_store.specs.Acceptance.{plain_state};
ghost use Rattle.hn_rules.specs.declared.answers.Subject.TheVariants.{NodeRequest};
ghost use Rattle.hn_rules.specs.Answers.{with_answer};
ghost use Rattle.hn_rules.specs.Rules.{Ran};
ghost use Rattle.hn_rules.specs.Nodes.{own_leaf};
ghost use Rattle.hn_rules.specs.KnownReach.{KnowsReach};
ghost use Rattle.hn_rules.specs.Router.{IsUntouched};
ghost use Rattle.hn_rules.specs.NodeState.{touches, TakesState, IsTaken, IsNodeState};

use crate::answers::Subject;
use crate::done::Note;
use crate::reaching::Touched;
use crate::running::Running;
use hn_base::{NoMemory, NodeId};
use hn_data::encode;
use hn_graph::same_links_reach;
use hn_io::Draw;
use hn_store::{
    OwnLeaf, State as CarriedState, Took, held_is_of_an_entry, others_stay, put_changes_one_node,
};
use hn_typed::Item;
use std::alloc::Global;

/// Whether a refresh is due after an answer: what is held has changed, or the own identifier is claimed.
fn touches(how: Took) -> bool
    ensures { result ≡ touches how }
{
    matches!(how, Took::Kept | Took::Renumbered | Took::Own)
}

/// What an answer touches of what a refresh reads, where it is known whether the same nodes stay reachable.
fn touched_by(how: Took, known: bool) -> Touched
    ensures any { result.any ≡ touches how }
    ensures links { result.links ≡ false → (how ≢ Own) × (known ≡ true) }
{
    Touched {
        any: touches(how),
        links: how == Took::Own || !known,
    }
}

impl Running {
    /// Asks for the data of a node.
    fn ask_for(&mut self, alloc: Global, node: NodeId) -> Result<(), NoMemory>
        ensures { OnOk result (self.new ≡ with_answer (NodeRequest node) (RequestNode node.0 []) self.old) }
    {
        let tlv = encode(alloc, &Item::RequestNode { node, subs: &[] })?;
        self.answer(Subject::NodeRequest(node), tlv)
    }

    /// What comes of the table's answer.
    fn took<D: Draw>(
        &mut self,
        alloc: Global,
        carried: &CarriedState<'_>,
        how: Took,
        draw: &mut D,
    ) -> Result<(), NoMemory>
        ensures { OnOk result (Ran (IsTaken (plain_state carried.now) how)
            (D.words draw.old) (D.words draw.new) self.old self.new) }
    {
        if how == Took::Own {
            self.note(Note::Own {
                number: carried.number,
            })?;
            return self.claim(alloc, carried.number, draw);
        }
        self.note(Note::Took {
            node: carried.node,
            how,
        })?;
        if how == Took::Ask {
            self.ask_for(alloc, carried.node)?;
        }
        Ok(())
    }

    /// A node state is taken by a copy of the table: its answer.
    fn take_in(
        &mut self,
        alloc: Global,
        own: &OwnLeaf,
        carried: &CarriedState<'_>,
    ) -> Result<Took, NoMemory>
        requires { own.now ≡ own_leaf self.old.state }
        ensures { IfOk result (λ how. TakesState (plain_state carried.now) how self.old self.new) }
    {
        let now = self.state.moment.get();
        self.state.table.edit()?.take(alloc, own, carried, now)
    }

    /// A node state that the table looks into: its answer, and whether the same nodes stay reachable, since the node has the
    /// same peers as before.
    fn take_new(
        &mut self,
        alloc: Global,
        own: &OwnLeaf,
        carried: &CarriedState<'_>,
    ) -> Result<(Took, bool), NoMemory>
        requires { own.now ≡ own_leaf self.old.state }
        ensures takes { IfOk result (λ taken. TakesState (plain_state carried.now) taken.0 self.old self.new) }
        ensures known { IfOk result (λ taken. taken.1 ≡ true → KnowsReach self.old.state → KnowsReach self.new.state) }
    {
        held_is_of_an_entry();
        others_stay();
        put_changes_one_node();
        same_links_reach();
        let _before = self.state.table.get().entries();
        let before = self.state.leading(carried.node)?;
        let how = self.take_in(alloc, own, carried)?;
        let _after = self.state.table.get().entries();
        let known = self.state.leads_as(carried.node, &before);
        Ok((how, known))
    }

    /// A node state is taken by the table: its answer, and whether it is known that the same nodes stay reachable. A state
    /// that the table does not look into leaves it uncopied.
    fn take_state(
        &mut self,
        alloc: Global,
        carried: &CarriedState<'_>,
    ) -> Result<(Took, bool), NoMemory>
        ensures takes { IfOk result (λ taken. TakesState (plain_state carried.now) taken.0 self.old self.new) }
        ensures known { IfOk result (λ taken. taken.1 ≡ true → KnowsReach self.old.state → KnowsReach self.new.state) }
    {
        let own = self.state.own_leaf();
        if let Some(how) = self.state.table.get().refusal(&own, carried) {
            return Ok((how, false));
        }
        self.take_new(alloc, &own, carried)
    }

    /// A Node State (RFC 7787, section 7.2.3): what it touched that a refresh reads.
    pub(crate) fn node_state<D: Draw>(
        &mut self,
        alloc: Global,
        carried: &CarriedState<'_>,
        draw: &mut D,
    ) -> Result<Touched, NoMemory>
        ensures ran { OnOk result (Ran (IsNodeState (plain_state carried.now))
            (D.words draw.old) (D.words draw.new) self.old self.new) }
        ensures untouched { IfOk result (λ touched. touched.any ≡ false → IsUntouched self.old.state self.new.state) }
        ensures known { IfOk result (λ touched. touched.any ≡ true → touched.links ≡ false
            → KnowsReach self.old.state → KnowsReach self.new.state) }
    {
        let (how, known) = self.take_state(alloc, carried)?;
        self.took(alloc, carried, how, draw)?;
        Ok(touched_by(how, known))
    }
}
