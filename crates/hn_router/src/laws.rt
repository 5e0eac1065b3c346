//! Laws of the router. Each is the contract of a function that does nothing: call it to know its law.

ghost use Rattle.hn_router.specs.Laws.{OneResult, EventHasAResult, NewExists, NewIsUnique, NewIsRouter, RouterStays, MomentStays};
ghost use Rattle.hn_router.specs.Laws.{MomentIsNow, EndpointsFollow, RouterHasOneAdvert, ElectedExists, AdvertExists, SendsAreShort, SendsAreBytes, LimitStays, RefusedInputStays};
ghost use Rattle.hn_router.specs.Laws.{CalmTickStays, GenuineStays};

use hn_data::items_are_unique;
use hn_deleg::{inside_keeps_the_order, lifetimes_fit, usable_exists, usable_is_unique};
use hn_graph::{own_is_reachable, reachable_is_a_node};
use hn_link::{common_link_exists, common_link_is_unique, elected_is_unique};
use hn_own::{none_are_well, own_data_exists, own_data_is_unique};
use hn_rules::{
    calm_tick, changes_keep_bytes, changes_keep_genuine, changes_keep_hashed, changes_keep_short,
    changes_keep_the_limit, next_due_is_one, refresh_makes_a_router, router_stays_later,
    rules_have_a_result, rules_have_one_result, rules_keep_a_router, rules_keep_the_endpoints,
    rules_keep_the_rest, rules_make_changes, view_is_a_network,
};
use hn_store::loss_keeps_table;
use hn_tlv::{first_fault_is_unique, list_is_unique, list_or_first_fault};

/// From one state, with one event, moment and stream of words, there is at most one result.
pub fn one_result()
    ensures { OneResult }
{
    list_is_unique();
    first_fault_is_unique();
    rules_have_one_result();
    next_due_is_one();
}

/// Over each stream of words an event has a result: it cannot be that there is none. With `one_result` there is exactly one.
pub fn event_has_a_result()
    ensures { EventHasAResult }
{
    router_stays_later();
    refresh_makes_a_router();
    rules_keep_a_router();
    rules_keep_the_rest();
    rules_have_a_result();
    list_or_first_fault();
}

/// There is a new router of an identifier and a limit at a moment.
pub fn new_exists()
    ensures { NewExists }
{
    own_data_exists();
}

/// There is at most one new router of an identifier and a limit at a moment.
pub fn new_is_unique()
    ensures { NewIsUnique }
{
    own_data_is_unique();
}

/// A new router that may hold 256 or 1,024 nodes is one.
pub fn new_is_router()
    ensures { NewIsRouter }
{
    own_is_reachable();
    reachable_is_a_node();
    loss_keeps_table();
    none_are_well();
}

/// What an event leaves of a router is one.
pub fn router_stays()
    ensures { RouterStays }
{
    router_stays_later();
    refresh_makes_a_router();
    rules_keep_a_router();
    rules_keep_the_rest();
}

/// No event changes the moment at which it happens.
pub fn events_keep_the_moment()
    ensures { MomentStays }
{
    rules_keep_the_endpoints();
}

/// After an event a router's moment is that of the event.
pub fn moment_is_now()
    ensures { MomentIsNow }
{
    rules_keep_the_endpoints();
}

/// A router's endpoints change where one is attached or detached, and by no other event.
pub fn endpoints_follow()
    ensures { EndpointsFollow }
{
    rules_keep_the_endpoints();
}

/// A router has at most one advertisement on an endpoint at its moment.
pub fn router_has_one_advert()
    ensures { RouterHasOneAdvert }
{
    usable_is_unique();
    common_link_is_unique();
    elected_is_unique();
}

/// It cannot be that there is no answer of who is elected on an endpoint's Common Link; with `elected_is_unique` there is
/// exactly one.
pub fn elected_exists()
    ensures { ElectedExists }
{
    items_are_unique();
    common_link_exists();
    view_is_a_network();
}

/// It cannot be that a router advertises nothing on an endpoint at its moment; with `router_has_one_advert` there is exactly
/// one advertisement. Its numbers fit their fields.
pub fn advert_exists()
    ensures { AdvertExists }
{
    usable_exists();
    lifetimes_fit();
    inside_keeps_the_order();
    elected_exists();
}

/// What a router sends fits a datagram.
pub fn sends_are_short()
    ensures { SendsAreShort }
{
    router_stays_later();
    rules_make_changes();
    rules_keep_the_rest();
    changes_keep_hashed();
    changes_keep_short();
}

/// What a router sends is a list of bytes.
pub fn sends_are_bytes()
    ensures { SendsAreBytes }
{
    router_stays_later();
    rules_make_changes();
    rules_keep_the_rest();
    changes_keep_hashed();
    changes_keep_bytes();
}

/// No event changes how many nodes a table may hold.
pub fn limit_stays()
    ensures { LimitStays }
{
    rules_make_changes();
    changes_keep_the_limit();
}

/// Refused input changes only the moment, and the one at which something is next due, which is 0 then.
pub fn refused_input_stays()
    ensures { RefusedInputStays }
{
    first_fault_is_unique();
}

/// A tick that nothing disturbs, at which the assignment subroutine would change nothing, changes neither what others see of
/// the router nor its assignments, marks of application aside.
pub fn calm_ticks_stay()
    ensures { CalmTickStays }
{
    calm_tick();
}

/// A router's own and held node data stay published, and so does what it sends, or texts that were published collide.
pub fn genuine_stays()
    ensures { GenuineStays }
{
    router_stays_later();
    rules_make_changes();
    rules_keep_the_rest();
    changes_keep_hashed();
    changes_keep_genuine();
}
