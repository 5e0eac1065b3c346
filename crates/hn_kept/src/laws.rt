//! Laws of preferred prefixes. Each is the contract of a function that does nothing: call it to know its law.

ghost use Rattle.hn_kept.specs.Laws.{NothingPreferred, PlaceIsPublished, FreeIsPublished, NewIsPreferred};

use hn_assign::{
    answers_know_no_order, pairs_are_ordered, steps_have_one_result, subroutine_leaves,
};
use hn_deleg::usable_is_unique;
use hn_prefix::{inside_are_sub_prefixes, place_is_first};
use hn_router::{event_has_a_result, router_stays};
use hn_rules::rules_have_one_result;

/// With nothing preferred an event takes the generator's next words.
pub fn nothing_preferred()
    ensures { NothingPreferred }
{}

/// Where the rules publish a prefix for a pair anew and take the word of the place of a preferred one, that is the one, if it is
/// free.
pub fn place_is_published()
    ensures { PlaceIsPublished }
{
    place_is_first();
    inside_are_sub_prefixes();
}

/// Where a tick makes the assignment of a preferred pair anew, and the preferred prefix is free when the turn of the pair comes,
/// the pair has it afterwards and publishes it.
pub fn free_is_published()
    ensures { FreeIsPublished }
{
    pairs_are_ordered();
    usable_is_unique();
    steps_have_one_result();
    answers_know_no_order();
    rules_have_one_result();
    event_has_a_result();
    router_stays();
    place_is_first();
    inside_are_sub_prefixes();
}

/// Where a pair has no assignment before a tick and publishes one after it, the tick made it anew. So it is the preferred prefix, if
/// that was free then.
pub fn new_is_preferred()
    ensures { NewIsPreferred }
{
    pairs_are_ordered();
    usable_is_unique();
    steps_have_one_result();
    answers_know_no_order();
    rules_have_one_result();
    event_has_a_result();
    router_stays();
    place_is_first();
    inside_are_sub_prefixes();
    subroutine_leaves();
}
