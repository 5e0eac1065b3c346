//! Whether the routers of a set are at rest, and the first thing that one would do: make, change or destroy an
//! assignment.

ghost use Rattle.std.specs.Prelude.{◌≡◌, ◌↔◌, ◌≤◌, IsTrue, IfOk};
ghost use Rattle.hn_pair.specs.Facts.{AreWishes};
ghost use Rattle.hn_pair.specs.Pair.{IsAscending, IsWished, assigned_pair, wish_pair};
ghost use Rattle.hn_audit.specs.First.{IsFirstFound};
ghost use Rattle.hn_audit.specs.FirstWitness.{act_of, FindsUnasked, FindsNotAtRest, FindsAct, FindsOfRouter};
ghost use Rattle.hn_audit.specs.Set.{members_of};

use crate::witness::Unquiet;
use hn_assign::{Advertised, Assigned, Index, Pair, Scene, Wish, is_at_rest, pairs_are_ordered};
use hn_base::{Name, NoMemory};
use hn_deleg::usable_is_unique;
use hn_world::Member;
use std::alloc::Global;

/// The pair of a wish.
fn pair_of(wish: &Wish) -> Pair
    ensures { result ≡ wish_pair wish.now }
{
    Pair {
        delegated: wish.delegated,
        endpoint: wish.endpoint,
    }
}

/// Whether there is a wish for the pair of an assignment.
fn is_asked(wishes: &[Wish], c: &Assigned) -> bool
    requires { IsAscending wish_pair wishes.now }
    ensures { IsTrue result ↔ IsWished wishes.now (assigned_pair c.now) }
{
    pairs_are_ordered();
    let pair = Pair {
        delegated: c.delegated,
        endpoint: c.endpoint,
    };
    wishes
        .binary_search_by_key(&pair, |wish| pair_of(wish))
        .is_ok()
}

/// The first assignment of a router for which there is no wish.
fn first_unasked(s: &Member, wishes: &[Wish]) -> Option<Unquiet>
    requires { IsAscending wish_pair wishes.now }
    ensures { IsFirstFound (FindsUnasked s.now.name wishes.now) s.now.router.held.assigned result }
{
    for c in s.router.held().assigned.as_slice() {
        if !is_asked(wishes, c) {
            return Some(Unquiet::Unasked {
                router: s.name,
                endpoint: c.endpoint,
                delegated: c.delegated,
                prefix: c.prefix,
            });
        }
    }
    None
}

/// What is done at a pair that is not at rest.
fn act_of(
    name: &Name,
    wish: &Wish,
    assignment: &Option<Assigned>,
    best: &Option<Advertised>,
) -> Unquiet
    ensures { result ≡ act_of name.now wish.now assignment.now best.now }
{
    let (router, endpoint, delegated) = (*name, wish.endpoint, wish.delegated);
    match (assignment, best) {
        (None, None) => Unquiet::Makes {
            router,
            endpoint,
            delegated,
        },
        (None, Some(best)) => Unquiet::Takes {
            router,
            endpoint,
            delegated,
            best: best.prefix,
        },
        (Some(c), None) => Unquiet::Drops {
            router,
            endpoint,
            delegated,
            prefix: c.prefix,
        },
        (Some(c), Some(best)) => Unquiet::Changes {
            router,
            endpoint,
            delegated,
            prefix: c.prefix,
            best: best.prefix,
        },
    }
}

/// What a router would do at a pair that it asks for.
fn act_at(s: &Member, known: &Index, wish: &Wish) -> Option<Unquiet>
    requires { wish.now.length ≤ 64 }
    ensures { FindsNotAtRest s.now.name known.now s.now.router.id.0 s.now.router.held.assigned wish.now result }
{
    pairs_are_ordered();
    let assigned = &s.router.held().assigned;
    let scene = Scene {
        own: s.router.id(),
        now: s.router.moment(),
        wish,
        known,
    };
    // The proof needs that the assignments ascend.
    let _ascending = assigned.as_slice();
    let assignment = assigned.find(&pair_of(wish));
    if is_at_rest(&scene, &assignment) {
        return None;
    }
    Some(act_of(&s.name, wish, &assignment, &scene.best()))
}

/// What a router would do at the first pair that is not at rest.
fn first_not_at_rest(s: &Member, known: &Index, wishes: &[Wish]) -> Option<Unquiet>
    requires { AreWishes wishes.now }
    ensures { IsFirstFound (FindsNotAtRest s.now.name known.now s.now.router.id.0 s.now.router.held.assigned) wishes.now result }
{
    for wish in wishes {
        if let Some(found) = act_at(s, known, wish) {
            return Some(found);
        }
    }
    None
}

/// The first assignment of a router for which there is no wish, or else what it would do at the first pair that is not
/// at rest.
fn first_act(s: &Member, known: &Index, wishes: &[Wish]) -> Option<Unquiet>
    requires { AreWishes wishes.now }
    ensures { FindsAct s.now.name known.now s.now.router.id.0 s.now.router.held.assigned wishes.now result }
{
    if let Some(found) = first_unasked(s, wishes) {
        return Some(found);
    }
    first_not_at_rest(s, known, wishes)
}

/// What a router would do first, if it is not at rest.
fn acts(alloc: Global, s: &Member) -> Result<Option<Unquiet>, NoMemory>
    ensures { IfOk result (FindsOfRouter s.now) }
{
    let usable = s.router.used(alloc)?;
    let wishes = s.router.wishes(alloc, usable.as_slice())?;
    let advertised = s.router.advertised(alloc)?;
    let known = Index::of(alloc, advertised.as_slice())?;
    Ok(first_act(s, &known, wishes.as_slice()))
}

/// The first router of a set that is not at rest: what it would do first.
pub(crate) fn first_acting(alloc: Global, set: &[&Member]) -> Result<Option<Unquiet>, NoMemory>
    ensures { IfOk result (IsFirstFound FindsOfRouter (members_of set.now)) }
{
    for s in set {
        if let Some(found) = acts(alloc, s)? {
            return Ok(Some(found));
        }
    }
    Ok(None)
}
