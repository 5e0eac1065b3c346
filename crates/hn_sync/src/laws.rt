//! Laws of exchanges. Each is the contract of a function that does nothing.

ghost use Rattle.hn_sync.specs.Laws.{JointIsLeast, NoJointWhereNoneJoined, QuestionIsPacked, AsksOrIsRefused, QuestionIsUnique};
ghost use Rattle.hn_sync.specs.Laws.{ExchangeIsEntered, ExchangeIsUnique, ExchangeExists, StopsForRoomAlone, ExchangeRepairs};

use hn_dncp::{packing_is_read, packing_is_unique};
use hn_hash::hash_has_eight_bytes;
use hn_io::words_join;
use hn_router::{endpoints_follow, moment_is_now};
use hn_rules::{items_are_published, refresh_after_a_refresh_rests, rules_have_one_result};
use hn_store::{
    acceptance_keeps_table, held_is_of_an_entry, held_was_brought, loss_keeps_table, others_stay,
    put_changes_one_node,
};
use hn_tlv::{first_fault_is_unique, list_is_of_bytes, list_is_unique};
use hn_typed::{item_fault_is_unique, item_is_unique, written_is_read};
use hn_world::{
    always_sound, at_most_one_world, each_event_is_entered, step_exists, step_is_unique,
};

/// What is computed are the least endpoints by which two routers are joined, and there are none exactly where no endpoints
/// of the two are.
pub fn joint_is_least()
    ensures least { JointIsLeast }
    ensures none { NoJointWhereNoneJoined }
{}

/// The datagram of a question is what a Request Network State is packed into, and nothing else is.
pub fn question_is_packed()
    ensures { QuestionIsPacked }
{
    packing_is_unique();
}

/// An exchange is refused before anything happens if and only if there is no question.
pub fn refused_or_asked()
    ensures { AsksOrIsRefused }
{
    always_sound();
}

/// There is at most one question.
pub fn question_is_unique()
    ensures { QuestionIsUnique }
{}

/// An exchange adds exactly its events to the trace.
pub fn exchange_is_entered()
    ensures { ExchangeIsEntered }
{
    each_event_is_entered();
}

/// From one world, over one stream of words that a draw tells, an exchange ends in at most one way.
pub fn exchange_is_unique()
    ensures { ExchangeIsUnique }
{
    step_is_unique();
    each_event_is_entered();
    question_is_unique();
}

/// Over each stream of random words an exchange ends: it cannot be that it does not. With `exchange_is_unique` it ends in
/// exactly one way.
pub fn exchange_exists()
    ensures { ExchangeExists }
{
    step_exists();
    each_event_is_entered();
    at_most_one_world();
    refused_or_asked();
    words_join();
    list_is_of_bytes();
}

/// An exchange stops for lack of room alone. Its copies go to and fro between the two endpoints, which stay attached to
/// routers that run.
pub fn stops_for_room_alone()
    ensures { StopsForRoomAlone }
{
    always_sound();
    at_most_one_world();
    endpoints_follow();
}

/// One exchange repairs: it leaves the router that asked with what the other one knows of each node that it reaches, but
/// for what was not older and for collisions.
pub fn exchange_repairs()
    ensures { ExchangeRepairs }
{
    always_sound();
    at_most_one_world();
    each_event_is_entered();
    endpoints_follow();
    moment_is_now();
    refresh_after_a_refresh_rests();
    rules_have_one_result();
    items_are_published();
    held_is_of_an_entry();
    put_changes_one_node();
    others_stay();
    acceptance_keeps_table();
    held_was_brought();
    loss_keeps_table();
    hash_has_eight_bytes();
    packing_is_read();
    item_is_unique();
    item_fault_is_unique();
    written_is_read();
    list_is_unique();
    list_is_of_bytes();
    first_fault_is_unique();
}
