//! The assignment of prefixes to the links of a router's posts (RFC 7788, section 6.3).

ghost use Rattle.std.specs.Prelude.{◌≡◌, ◌<◌, ◌≤◌, ◌⊎◌, ◌↔◌, ℕ, false, length, All, Contains, IfOk, OnOk};
ghost use Rattle.hn_data.specs.View.{IsNetwork, plain_view};
ghost use Rattle.hn_deleg.specs.Used.{AreUsable};
ghost use Rattle.hn_base.specs.Words.{Took};
ghost use Rattle.hn_pair.specs.declared.assigned.Wish.{Wish};
ghost use Rattle.hn_assign.specs.Subroutine.{IsSubroutine};
ghost use Rattle.hn_rules.specs.Nodes.{view_of};
ghost use Rattle.hn_rules.specs.Router.{IsRouter, IsRefreshed};
ghost use Rattle.hn_rules.specs.Rules.{Ran};
ghost use Rattle.hn_rules.specs.Seen.{seen_by};
ghost use Rattle.hn_own.specs.HeldPairs.{AreHeldPairs};
ghost use Rattle.hn_rules.specs.Assigning.{IsWishAt, AreAsked, IsRunAssigned, IsAssigning};
ghost use Rattle.hn_rules.specs.Posts.{HasCommonLink, endpoints_at};

use crate::laws::view_is_a_network;
use crate::running::Running;
use crate::state::State;
use hn_assign::{
    Held, KeptIndex, Wish, Wishes, pairs_are_ordered, subroutine_leaves, subroutine_with,
};
use hn_base::{Endpoints, EpId, LinkLength, NoMemory, Shared};
use hn_data::View;
use hn_deleg::{Delegated, used, wanted};
use hn_io::Draw;
use hn_link::{common, common_link_is_unique};
use hn_own::{length_at, posts_ascend};
use std::alloc::Global;

/// An endpoint and its Common Link, which is found once for all pairs of the endpoint.
#[derive(Drop)]
struct Post {
    endpoint: EpId,
    common: Endpoints,
}

/// Each endpoint with its Common Link.
fn posts_of(alloc: Global, view: &View<'_>, endpoints: &[EpId]) -> Result<Vec<Post>, NoMemory>
    requires { IsNetwork view.now.own.0 view.now.nodes.now }
    ensures endpoints { IfOk result (λ posts. endpoints_at posts.items ≡ endpoints.now) }
    ensures common { IfOk result (λ posts. All (HasCommonLink (plain_view view.entry.now)) posts.items) }
{
    let mut posts = Vec::new(alloc);
    for endpoint in endpoints {
        posts.push(Post {
            endpoint: *endpoint,
            common: common(alloc, view, *endpoint)?,
        })?;
    }
    Ok(posts)
}

/// What is asked for the pair of a usable delegated prefix and an endpoint.
fn wish_at(
    alloc: Global,
    private: &Option<LinkLength>,
    view: &View<'_>,
    usable: &[Delegated],
    place: usize,
    post: &Post,
) -> Result<Wish, NoMemory>
    requires there { place < length usable.now }
    requires common { HasCommonLink (plain_view view.now) post.now }
    ensures wish { IfOk result (IsWishAt private.now (plain_view view.entry.now) usable.now place) }
    ensures some { IfOk result (λ wish. 1 ≤ wish.length) }
    ensures in_range { IfOk result (λ wish. wish.length ≤ 64) }
    ensures endpoint { IfOk result (λ wish. wish.endpoint ≡ post.now.endpoint) }
{
    Ok(Wish {
        delegated: usable[place].prefix,
        wanted: wanted(usable, place),
        endpoint: post.endpoint,
        common: post.common.copy(alloc)?,
        length: length_at(*private, post.endpoint),
    })
}

/// Adds the wishes for a usable delegated prefix and each endpoint.
fn add_wishes(
    alloc: Global,
    wishes: &mut Wishes,
    private: &Option<LinkLength>,
    view: &View<'_>,
    usable: &[Delegated],
    place: usize,
    posts: &[Post],
) -> Result<(), NoMemory>
    requires there { place < length usable.now }
    requires usable { AreUsable (plain_view view.now) usable.now }
    requires common { All (HasCommonLink (plain_view view.now)) posts.now }
    requires asked { (wish : Wish) → Contains wishes.old wish
        → (other : ℕ) × IsWishAt private.now (plain_view view.now) usable.now other wish }
    ensures { OnOk result ((wish : Wish) → Contains wishes.new wish
        ↔ (Contains wishes.old wish
        ⊎ (IsWishAt private.now (plain_view view.entry.now) usable.now place wish
        × Contains (endpoints_at posts.now) wish.endpoint))) }
{
    common_link_is_unique();
    for post in posts {
        let wish = wish_at(alloc, private, view, usable, place, post)?;
        wishes.add(wish)?;
    }
    Ok(())
}

/// The wishes for each usable delegated prefix and each endpoint.
fn all_wishes(
    alloc: Global,
    private: &Option<LinkLength>,
    view: &View<'_>,
    usable: &[Delegated],
    endpoints: &[EpId],
) -> Result<Wishes, NoMemory>
    requires usable { AreUsable (plain_view view.now) usable.now }
    requires network { IsNetwork view.now.own.0 view.now.nodes.now }
    ensures { IfOk result (λ wishes. (wish : Wish) → Contains wishes wish
        ↔ ((place : ℕ) × IsWishAt private.now (plain_view view.entry.now) usable.now place wish
        × Contains endpoints.now wish.endpoint)) }
{
    let mut wishes = Wishes::new(alloc);
    if usable.is_empty() {
        return Ok(wishes);
    }
    let posts = posts_of(alloc, view, endpoints)?;
    for place in 0..usable.len() {
        add_wishes(alloc, &mut wishes, private, view, usable, place, &posts)?;
    }
    Ok(wishes)
}

impl State {
    /// What the router asks, in this view of the network.
    fn wishes_in(
        &self,
        alloc: Global,
        view: &View<'_>,
        usable: &[Delegated],
    ) -> Result<Wishes, NoMemory>
        requires view { plain_view view.now ≡ seen_by self.now }
        requires usable { AreUsable (seen_by self.now) usable.now }
        requires network { IsNetwork self.now.id.0 (view_of self.now) }
        ensures { IfOk result (AreAsked self.now usable.now) }
    {
        let posts = self.ports.get().posts(alloc, self.private)?;
        let wishes = all_wishes(alloc, &self.private, view, usable, posts.as_slice())?;
        let _kept = wishes.as_slice();
        Ok(wishes)
    }

    /// What the router asks, as it sees the network: a wish for each pair of a usable delegated prefix and a post.
    ///
    /// # Errors
    ///
    /// Out of memory.
    pub fn wishes(&self, alloc: Global, usable: &[Delegated]) -> Result<Wishes, NoMemory>
        requires router { IsRouter self.now }
        requires usable { AreUsable (seen_by self.now) usable.now }
        ensures { IfOk result (AreAsked self.now usable.now) }
    {
        view_is_a_network();
        let nodes = self.seen(alloc)?;
        let view = self.view(nodes.as_slice());
        self.wishes_in(alloc, &view, usable)
    }

    /// What the assignment subroutine makes of the router's assignments and backoffs, and the index to keep, if it is another.
    fn assigned<D: Draw>(
        &self,
        alloc: Global,
        draw: &mut D,
    ) -> Result<(hn_assign::Ran, Option<Shared<KeptIndex>>), NoMemory>
        requires { IsRouter self.now }
        ensures assigned { IfOk result (λ left. IsRunAssigned self.now left.0) }
        ensures kept { IfOk result (λ left. AreHeldPairs left.0.held) }
        ensures drew { IfOk result (λ left. Took (D.words draw.old) left.0.words (D.words draw.new)) }
    {
        view_is_a_network();
        pairs_are_ordered();
        subroutine_leaves();
        posts_ascend();
        let nodes = self.seen(alloc)?;
        let view = self.view(nodes.as_slice());
        let _now = self.moment.get();
        let usable = used(alloc, &view)?;
        let wishes = self.wishes_in(alloc, &view, usable.as_slice())?;
        let held = self.held.get();
        let left = subroutine_with(alloc, &view, &wishes, held.get(), held.index(), draw)?;
        Ok(left)
    }
}

impl Running {
    /// Holds what the assignment subroutine left, where the router does not hold it already: whether an assignment differs.
    fn hold(
        &mut self,
        alloc: Global,
        held: Held,
        index: Option<Shared<KeptIndex>>,
    ) -> Result<bool, NoMemory>
        requires { AreHeldPairs held }
        ensures held { OnOk result (self.new ≡ record self.old { state = record self.old.state { held = held } }) }
        ensures untouched { IfOk result (λ touched. touched ≡ false → held.assigned ≡ self.old.state.held.assigned) }
    {
        let touched = !self.state.has_assigned(&held);
        if !touched && index.is_none() && self.state.has_backoffs(&held) {
            return Ok(false);
        }
        let next = self.state.held.get().then(held, index)?;
        self.state.held = Shared::new(alloc, next)?;
        Ok(touched)
    }

    /// The assignment of prefixes: whether it made, changed or destroyed an assignment. After `false` what a refresh
    /// makes still holds. No clause says that something was touched after `true`.
    ///
    /// # Errors
    ///
    /// Out of memory. No clause says what the `Running` is then.
    pub fn assign<D: Draw>(&mut self, alloc: Global, draw: &mut D) -> Result<bool, NoMemory>
        requires { IsRouter self.old.state }
        ensures ran { OnOk result (Ran IsAssigning (D.words draw.old) (D.words draw.new) self.old self.new) }
        ensures untouched { IfOk result (λ touched. touched ≡ false → IsRefreshed self.new.state) }
    {
        let (hn_assign::Ran { held, words }, index) = self.state.assigned(alloc, draw)?;
        let touched = self.hold(alloc, held, index)?;
        self.took_words(words.as_slice())?;
        Ok(touched)
    }
}
