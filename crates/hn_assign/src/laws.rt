//! Laws of the assignment subroutine (RFC 7695, section 4.1).
//!
//! Each is the contract of a function that does nothing: call it to know its law.

ghost use Rattle.std.specs.Prelude.{List, All};
ghost use Rattle.hn_data.specs.View.{PlainView};
ghost use Rattle.hn_assign.specs.declared.advertised.Advertised.{Advertised};
ghost use Rattle.hn_pair.specs.declared.assigned.Assigned.{Assigned};
ghost use Rattle.hn_pair.specs.declared.assigned.Wish.{Wish};
ghost use Rattle.hn_pair.specs.declared.held.Held.{Held};
ghost use Rattle.hn_assign.specs.declared.ran.Ran.{Ran};
ghost use Rattle.hn_assign.specs.declared.slot.Slot.{Slot};
ghost use Rattle.hn_assign.specs.Laws.{BestIsUnique, SubroutineKeepsInside, SubroutineKeepsPast};
ghost use Rattle.hn_assign.specs.Laws.{SubroutineKeepsPriority, AssignedAscend, BackoffsAscend, AssignedAreWished};
ghost use Rattle.hn_assign.specs.Laws.{SubroutineHasOneResult, StepHasOneResult, StepsHaveOneResult, RestIsUnchanged, RestHasADueRun};
ghost use Rattle.hn_assign.specs.Laws.{RestChangesNoAssignment, MarksChangeNothing, AdvertisedOfUnchanged, RestStays};
ghost use Rattle.hn_assign.specs.Laws.{RestStaysUnwanted, AdvertisedOfLater, IdleRunStays, SameHaveOneBest};
ghost use Rattle.hn_assign.specs.Laws.{SameHaveOneFirstFree, SameHaveSameFree, SameHaveSameValid, AdvertisedExists};
ghost use Rattle.hn_assign.specs.Laws.{SubroutineKeepsLengths, SubroutineKeepsPrefixes, SubroutineKeepsSoon, SubroutineHasAResult, SubroutineHasADueRun};
ghost use Rattle.hn_assign.specs.Lines.{IsKeptAlone, IsAdopted, IsKeptAhead, IsYielded, IsReplacedByBest};
ghost use Rattle.hn_pair.specs.Pair.{IsWished, backoff_pair};
ghost use Rattle.hn_assign.specs.Scene.{PlainScene};
ghost use Rattle.hn_assign.specs.Subroutine.{IsSubroutine};

use hn_data::{items_are_unique, items_or_none};
use hn_pair::lists_exist;
use hn_prefix::{free_or_full, inside_are_sub_prefixes, within_is_not_shorter};

/// At most one line of the table applies to a pair: its best prefix is one, and the lines that are for the same best
/// prefix and assignment exclude each other.
pub fn lines_exclude_each_other()
    ensures best { BestIsUnique }
    ensures alone { (at : PlainScene) (c : Assigned) (before x y : Slot)
        → IsKeptAlone at c before x → ¬ (IsAdopted at c before y) }
    ensures yielded { (at : PlainScene) (best : Advertised) (c : Assigned) (before x y : Slot)
        → IsKeptAhead at best c before x → ¬ (IsYielded at best c before y) }
    ensures replaced { (at : PlainScene) (best : Advertised) (c : Assigned) (before x y : Slot)
        → IsKeptAhead at best c before x → ¬ (IsReplacedByBest at best c y) }
    ensures other { (at : PlainScene) (best : Advertised) (c : Assigned) (before x y : Slot)
        → IsYielded at best c before x → ¬ (IsReplacedByBest at best c y) }
{}

/// What the subroutine keeps of each assignment: its prefix is one, inside its delegated prefix; it was made at the moment
/// of the view or before; where it is published, its priority is 2; where the own node is alone on the Common Link of its
/// endpoint, its length is the one that is asked for. And of each backoff: it is due within 4,000 ms of that moment.
pub fn subroutine_keeps()
    ensures inside { SubroutineKeepsInside }
    ensures prefix { SubroutineKeepsPrefixes }
    ensures past { SubroutineKeepsPast }
    ensures soon { SubroutineKeepsSoon }
    ensures priority { SubroutineKeepsPriority }
    ensures alone { SubroutineKeepsLengths }
{}

/// What the subroutine leaves: both lists strictly ascend by delegated prefix and endpoint, and have nothing for a pair
/// without a wish.
pub fn subroutine_leaves()
    ensures assigned { AssignedAscend }
    ensures backoffs { BackoffsAscend }
    ensures wished { AssignedAreWished }
    ensures awaited { (view : PlainView) (wishes : List Wish) (held : Held) (ran : Ran) → IsSubroutine view wishes held ran
        → All (λ b. IsWished wishes (backoff_pair b)) ran.held.backoffs }
{}

/// The subroutine has at most one result: that of one view, wishes, held and stream of words.
pub fn subroutine_has_one_result()
    ensures { SubroutineHasOneResult }
{}

/// From a state whose lists ascend, the step of a pair has at most one result over one stream of words, and so have the steps
/// of some pairs, one after another.
pub fn steps_have_one_result()
    ensures step { StepHasOneResult }
    ensures steps { StepsHaveOneResult }
{}

/// The subroutine leaves all assignments as they are, marks of application aside, if and only if each pair is at rest.
///
/// So it is where all assignments are of wished pairs, and the backoffs are those of the wished pairs without an
/// assignment, due at the moment of the view; whatever the words are.
pub fn rest_is_unchanged()
    ensures { RestIsUnchanged }
{}

/// Where all assignments are of wished pairs and each pair is at rest, the subroutine comes to a result with each backoff
/// due. It takes no random word, and leaves all assignments as they are, marks of application aside.
pub fn rest_has_a_run()
    ensures { RestHasADueRun }
{}

/// Where all assignments are of wished pairs and each pair is at rest, the subroutine leaves all assignments as they are,
/// marks of application aside, whatever the backoffs and the words are.
pub fn rest_changes_no_assignment()
    ensures { RestChangesNoAssignment }
{}

/// Marks of application change no assignment.
pub fn marks_change_nothing()
    ensures { MarksChangeNothing }
{}

/// Where all assignments are as they were, marks of application aside, the same prefixes are advertised.
pub fn advertised_of_unchanged()
    ensures { AdvertisedOfUnchanged }
{}

/// Where all assignments are as they were, marks of application aside, the same pairs are at rest. And a pair at rest
/// stays so where its delegated prefix is wanted no more.
pub fn rest_stays()
    ensures unchanged { RestStays }
    ensures unwanted { RestStaysUnwanted }
{}

/// While time passes, the same prefixes are advertised.
pub fn advertised_of_later()
    ensures { AdvertisedOfLater }
{}

/// Where the subroutine takes no word and leaves what is held as it is, it does so at a later moment too, while nothing
/// that is held comes to its moment.
pub fn idle_run_stays()
    ensures { IdleRunStays }
{}

/// Of lists with the same elements, in whatever order, the best prefix, the valid assignments and the free prefixes are
/// the same. So an index answers what `best`, `valid` and `first_free` answer on the list that it was made of.
pub fn answers_know_no_order()
    ensures best { SameHaveOneBest }
    ensures valid { SameHaveSameValid }
    ensures first { SameHaveOneFirstFree }
    ensures none { SameHaveSameFree }
{}

/// A view has a list of advertised prefixes.
pub fn advertised_exists()
    ensures { AdvertisedExists }
{
    items_or_none();
    items_are_unique();
}

/// Over each stream of words the subroutine has a result, and one with each backoff due: it cannot be that there is none.
/// What is held ascends, the wishes are fitting, and their delegated prefixes are prefixes, as the types have it.
///
/// With `subroutine_has_one_result` there is exactly one.
pub fn subroutine_has_a_result()
    ensures result { SubroutineHasAResult }
    ensures due { SubroutineHasADueRun }
{
    advertised_exists();
    free_or_full();
    inside_are_sub_prefixes();
    lists_exist();
    within_is_not_shorter();
}
