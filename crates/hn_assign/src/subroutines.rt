ghost use Rattle.std.specs.Prelude.{◌≡◌, ◌^◌, ◌≤◌, [], All, IfOk, OnOk};
ghost use Rattle.hn_base.specs.Words.{Took};
ghost use Rattle.hn_data.specs.View.{plain_view, IsNetwork};
ghost use Rattle.hn_assign.specs.Gathered.{AreAdvertised};
ghost use Rattle.hn_pair.specs.Facts.{AreWishes, IsInDelegated, IsAssignedPast, HasOwnPriority};
ghost use Rattle.hn_pair.specs.Pair.{IsAscending, assigned_pair, backoff_pair, wish_pair};
ghost use Rattle.hn_assign.specs.Renewed.{HasOfOthers};
ghost use Rattle.hn_assign.specs.Subroutine.{IsBegun, AreSteps, IsSubroutine};

use crate::changed::own_node;
use crate::index::Index;
use crate::kept_index::KeptIndex;
use crate::ran::Ran;
use crate::renewing::renewed;
use hn_base::{NoMemory, Shared, Words};
use hn_data::View;
use hn_io::{Draw, words_join};
use hn_pair::{Held, Wish, Wishes};
use std::alloc::Global;

/// The assignment subroutine for all pairs of a used delegated prefix and a post, which is an attached endpoint or the
/// private link (RFC 7695, section 4.1), one wish for each, at the moment of the view.
///
/// First the assignments and backoffs of other pairs are destroyed. Then each pair has its turn, in ascending order by
/// delegated prefix and endpoint, and sees what those before it changed. Last, assignments that were kept for 10,000 ms
/// are marked applied (RFC 7695, section 4.3). One word of the draw is taken for each backoff that is set and one for
/// each assignment that is made, in order. Each assignment that is held is inside its delegated prefix, and was made at
/// that moment or before.
///
/// # Errors
///
/// Out of memory. Words may have been taken then.
pub fn subroutine<D: Draw>(
    alloc: Global,
    view: &View<'_>,
    wishes: &Wishes,
    held: &Held,
    draw: &mut D,
) -> Result<Ran, NoMemory>
    requires network { IsNetwork view.now.own.0 view.now.nodes.now }
    requires moment { view.now.now ≤ 2 ^ 48 }
    requires inside { All IsInDelegated held.now.assigned }
    requires past { All (IsAssignedPast view.now.now) held.now.assigned }
    ensures subroutine { IfOk result (IsSubroutine (plain_view view.entry.now) wishes.now held.now) }
    ensures drew { IfOk result (λ ran. Took (D.words draw.old) ran.words (D.words draw.new)) }

    // So what holds of each assignment still holds, and the lists are in order.
    ensures ascending { IfOk result (λ ran. IsAscending assigned_pair ran.held.assigned
        × IsAscending backoff_pair ran.held.backoffs) }
    ensures inside { IfOk result (λ ran. All IsInDelegated ran.held.assigned) }
    ensures past { IfOk result (λ ran. All (IsAssignedPast view.entry.now.now) ran.held.assigned) }
    ensures priority { All HasOwnPriority held.now.assigned → IfOk result (λ ran. All HasOwnPriority ran.held.assigned) }
{
    let (ran, _) = subroutine_with(alloc, view, wishes, held, &None, draw)?;
    Ok(ran)
}

/// The same, with the index that is kept, which serves where it is of what the router sees and holds. The answer has the index
/// to keep in its place; `None` where the kept one is to stay.
///
/// # Errors
///
/// Out of memory. Words may have been taken then.
pub fn subroutine_with<D: Draw>(
    alloc: Global,
    view: &View<'_>,
    wishes: &Wishes,
    held: &Held,
    kept: &Option<Shared<KeptIndex>>,
    draw: &mut D,
) -> Result<(Ran, Option<Shared<KeptIndex>>), NoMemory>
    requires network { IsNetwork view.now.own.0 view.now.nodes.now }
    requires moment { view.now.now ≤ 2 ^ 48 }
    requires inside { All IsInDelegated held.now.assigned }
    requires past { All (IsAssignedPast view.now.now) held.now.assigned }
    ensures subroutine { IfOk result (λ left. IsSubroutine (plain_view view.entry.now) wishes.now held.now left.0) }
    ensures drew { IfOk result (λ left. Took (D.words draw.old) left.0.words (D.words draw.new)) }

    // So what holds of each assignment still holds, and the lists are in order.
    ensures ascending { IfOk result (λ left. IsAscending assigned_pair left.0.held.assigned
        × IsAscending backoff_pair left.0.held.backoffs) }
    ensures inside { IfOk result (λ left. All IsInDelegated left.0.held.assigned) }
    ensures past { IfOk result (λ left. All (IsAssignedPast view.entry.now.now) left.0.held.assigned) }
    ensures priority { All HasOwnPriority held.now.assigned → IfOk result (λ left. All HasOwnPriority left.0.held.assigned) }
{
    let left = run(alloc, view, wishes.as_slice(), held, kept, draw)?;
    Ok(left)
}

/// The subroutine, with the wishes as a slice.
fn run<D: Draw>(
    alloc: Global,
    view: &View<'_>,
    wishes: &[Wish],
    held: &Held,
    kept: &Option<Shared<KeptIndex>>,
    draw: &mut D,
) -> Result<(Ran, Option<Shared<KeptIndex>>), NoMemory>
    requires network { IsNetwork view.now.own.0 view.now.nodes.now }
    requires moment { view.now.now ≤ 2 ^ 48 }
    requires wishes { AreWishes wishes.now }
    ensures subroutine { IfOk result (λ left. IsSubroutine (plain_view view.entry.now) wishes.now held.now left.0) }
    ensures drew { IfOk result (λ left. Took (D.words draw.old) left.0.words (D.words draw.new)) }
{
    let mut ran = begin(alloc, wishes, held)?;
    let next = turns(alloc, view, wishes, kept, &mut ran, draw)?;
    ran.held.assigned.mark(view.now);
    Ok((ran, next))
}

/// The turns of all pairs, in the order of the wishes: the index to keep, if it is another one.
fn turns<D: Draw>(
    alloc: Global,
    view: &View<'_>,
    wishes: &[Wish],
    kept: &Option<Shared<KeptIndex>>,
    ran: &mut Ran,
    draw: &mut D,
) -> Result<Option<Shared<KeptIndex>>, NoMemory>
    requires network { IsNetwork view.now.own.0 view.now.nodes.now }
    requires moment { view.now.now ≤ 2 ^ 48 }
    requires wishes { AreWishes wishes.now }
    requires untaken { ran.old.words ≡ [] }
    ensures steps { OnOk result (AreSteps (plain_view view.entry.now) wishes.now ran.old ran.new) }
    ensures drew { OnOk result (Took (D.words draw.old) ran.new.words (D.words draw.new)) }
{
    words_join();
    if wishes.is_empty() {
        let next = let_go(alloc, kept)?;
        return Ok(next);
    }
    let (mut known, served) = first_known(alloc, view, &ran.held, kept)?;
    let changed = all_turns(alloc, view, wishes, &mut known, ran, draw)?;
    if served && !changed {
        return Ok(None);
    }
    let next = KeptIndex::of(alloc, view, &ran.held, known)?;
    Ok(Some(Shared::new(alloc, next)?))
}

/// The index that takes the place of one that nothing asks for any more: one of nothing, so its memory is free again.
fn let_go(
    alloc: Global,
    kept: &Option<Shared<KeptIndex>>,
) -> Result<Option<Shared<KeptIndex>>, NoMemory> {
    let Some(kept) = kept else {
        return Ok(None);
    };
    if kept.get().is_of_nothing() {
        return Ok(None);
    }
    let nothing = KeptIndex::nothing(alloc)?;
    Ok(Some(Shared::new(alloc, nothing)?))
}

/// What the router knows to be advertised.
fn gathered(alloc: Global, view: &View<'_>, held: &Held) -> Result<Shared<Index>, NoMemory>
    requires { IsNetwork view.now.own.0 view.now.nodes.now }
    ensures { IfOk result (AreAdvertised (plain_view view.entry.now) held.now.assigned) }
{
    Shared::new(alloc, Index::gather(alloc, view, held)?)
}

/// The same, from what it knew with other assignments of its own.
fn gathered_again(
    alloc: Global,
    view: &View<'_>,
    known: &Index,
    held: &Held,
) -> Result<Shared<Index>, NoMemory>
    requires network { IsNetwork view.now.own.0 view.now.nodes.now }
    requires known { HasOfOthers view.now.own.0 view.now.nodes.now known.now }
    ensures { IfOk result (AreAdvertised (plain_view view.entry.now) held.now.assigned) }
{
    if !known.is_ordered() {
        return gathered(alloc, view, held);
    }
    let changed = own_node(alloc, view.own)?;
    let again = renewed(alloc, known.as_slice(), &changed, view, held)?;
    Shared::new(alloc, again)
}

/// The same, from the index that is kept where that serves, and whether it does.
fn first_known(
    alloc: Global,
    view: &View<'_>,
    held: &Held,
    kept: &Option<Shared<KeptIndex>>,
) -> Result<(Shared<Index>, bool), NoMemory>
    requires { IsNetwork view.now.own.0 view.now.nodes.now }
    ensures { IfOk result (λ first. AreAdvertised (plain_view view.entry.now) held.now.assigned first.0) }
{
    if let Some(kept) = kept {
        if let Some(known) = kept.get().serve(view, held)? {
            return Ok((known, true));
        }
        let known = kept.get().renewed(alloc, view, held)?;
        return Ok((Shared::new(alloc, known)?, false));
    }
    let known = gathered(alloc, view, held)?;
    Ok((known, false))
}

/// The turns, each with what is advertised then: whether that changed.
fn all_turns<D: Draw>(
    alloc: Global,
    view: &View<'_>,
    wishes: &[Wish],
    known: &mut Shared<Index>,
    ran: &mut Ran,
    draw: &mut D,
) -> Result<bool, NoMemory>
    requires network { IsNetwork view.now.own.0 view.now.nodes.now }
    requires moment { view.now.now ≤ 2 ^ 48 }
    requires wishes { AreWishes wishes.now }
    requires untaken { ran.old.words ≡ [] }
    requires known { AreAdvertised (plain_view view.now) ran.old.held.assigned known.old }
    ensures steps { OnOk result (AreSteps (plain_view view.entry.now) wishes.now ran.old ran.new) }
    ensures drew { OnOk result (Took (D.words draw.old) ran.new.words (D.words draw.new)) }
    ensures known { OnOk result (AreAdvertised (plain_view view.entry.now) ran.new.held.assigned known.new) }
{
    words_join();
    let mut changed = false;
    for wish in wishes {
        if ran.step(view, known.get(), wish, draw)? {
            *known = gathered_again(alloc, view, known.get(), &ran.held)?;
            changed = true;
        }
    }
    Ok(changed)
}

/// Where the subroutine begins.
fn begin(alloc: Global, wishes: &[Wish], held: &Held) -> Result<Ran, NoMemory>
    requires { IsAscending wish_pair wishes.now }
    ensures { IfOk result (IsBegun wishes.now held.now) }
{
    let held = Held {
        assigned: held.assigned.wished(alloc, wishes)?,
        backoffs: held.backoffs.wished(alloc, wishes)?,
    };
    Ok(Ran {
        held,
        words: Words::new(alloc),
    })
}
