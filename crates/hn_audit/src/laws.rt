//! Laws of settled and quiet routers. Each is the contract of a function that does nothing.

ghost use Rattle.hn_world.specs.Leaves.{EqualHashesAgree};
ghost use Rattle.hn_audit.specs.Laws.{SettledAndQuietIsSound, ReplayedElectAlike, AlwaysSettledElectAlike, SetIsSoundAlike, SettledSeeEachOther};
ghost use Rattle.hn_audit.specs.Laws.{AlwaysSettledAreSound, IsOfEachFront, SettledAreSoundByRules, RestKeepsAssignments};
ghost use Rattle.hn_audit.specs.Laws.{RestHasARun, UnchangedIsAtRest, AnewHasARun, WitnessRefutesSettled, WitnessRefutesQuiet, WitnessNamesOneNotAtRest, UnsettledIsOne, UnquietIsOne};
ghost use Rattle.hn_audit.specs.Calm.{SettledHaveOneHash, QuietStaysOverDeliveries, RestGoesOn, RestLasts};
ghost use Rattle.hn_audit.specs.Heard.{RestLastsWhileHeard, RoundRenews, RestGoesInRounds, RestGoesInTurns};
ghost use Rattle.hn_audit.specs.Lasting.{CalmComesAndLasts, CalmHomesAlwaysStay};
ghost use Rattle.hn_audit.specs.Staying.{QuietHomesStay, QuietHomesAlwaysStay};

use hn_assign::{
    advertised_exists, advertised_of_later, advertised_of_unchanged, answers_know_no_order,
    pairs_are_ordered, rest_changes_no_assignment, rest_has_a_run, rest_is_unchanged, rest_stays,
    subroutine_has_a_result, subroutine_leaves,
};
use hn_data::items_are_unique;
use hn_deleg::{
    ends_of_later, usable_exists, usable_is_unique, usable_never_overlap, usable_of_later,
};
use hn_link::{common_link_exists, common_link_of_later};
use hn_router::{endpoints_follow, moment_is_now, one_result};
use hn_rules::{
    assigned_is_published, calm_tick, calm_tick_leaves_ages, calm_tick_moves_ports,
    changes_keep_hashed, entries_are_as_known, hash_is_of_leaves, items_are_published,
    own_interval_is_default, own_peers_are_of_endpoints, peers_are_attached, private_post_is_alone,
    tick_keeps_the_identifier, ticks_have_sent, ticks_send_status_updates,
    updates_of_peers_are_let_pass, used_where_assigned, view_is_a_network, view_of_later,
    wishes_exist,
};
use hn_sound::{home_at_rest_is_sound, home_rests_as_seen, lists_are_exact, rest_knows_no_order};
use hn_tlv::list_is_unique;
use hn_typed::item_is_unique;
use hn_world::{always_attached, always_sound, at_most_one_world, each_event_is_a_step};

/// In a replayed world a running router that is settled and quiet is sound: each link of those that it reaches, also each
/// private link, is served with one prefix inside each used delegated prefix, unless none was free or wanted.
pub fn settled_and_quiet_is_sound()
    ensures { SettledAndQuietIsSound }
{
    at_most_one_world();
    always_sound();
    always_attached();
    assigned_is_published();
    view_is_a_network();
    entries_are_as_known();
    items_are_published();
    items_are_unique();
    own_peers_are_of_endpoints();
    private_post_is_alone();
    common_link_exists();
    usable_is_unique();
    usable_never_overlap();
    pairs_are_ordered();
    lists_are_exact();
    home_rests_as_seen();
    home_at_rest_is_sound();
}

/// In a replayed world, and at each moment of its past, the elections are equal on each link of a running router that is
/// settled, quiet or not.
pub fn settled_elect_alike()
    ensures now { ReplayedElectAlike }
    ensures always { AlwaysSettledElectAlike }
{
    at_most_one_world();
    always_sound();
    always_attached();
    assigned_is_published();
    view_is_a_network();
    entries_are_as_known();
    items_are_published();
    items_are_unique();
    own_peers_are_of_endpoints();
    private_post_is_alone();
    common_link_exists();
    usable_exists();
    usable_is_unique();
    usable_never_overlap();
    pairs_are_ordered();
    lists_are_exact();
    home_rests_as_seen();
    home_at_rest_is_sound();
}

/// In a replayed world a running router that is settled is sound if and only if each router that it reaches is.
pub fn set_is_sound_alike()
    ensures { SetIsSoundAlike }
{
    at_most_one_world();
    always_sound();
    always_attached();
    view_is_a_network();
    entries_are_as_known();
    usable_is_unique();
}

/// In a replayed world, of the set of a running router that is settled, each router sees each other as it is, and sees
/// nobody else.
pub fn settled_see_each_other()
    ensures { SettledSeeEachOther }
{
    at_most_one_world();
    always_sound();
    always_attached();
    view_is_a_network();
    entries_are_as_known();
}

/// At each moment of a replayed world's past each running router that is settled and quiet is sound.
pub fn settled_are_always_sound()
    ensures { AlwaysSettledAreSound }
{
    at_most_one_world();
    always_sound();
    settled_and_quiet_is_sound();
}

/// The headline of a trace is that of each of its fronts: what held at each moment of a world's past, held at each moment
/// of the past of a world that a front of its trace leads to. So it is of both parts of the headline: that settled and
/// quiet routers are sound, and that equal network state hashes are those of equal node data.
pub fn headline_of_each_front()
    ensures sound { IsOfEachFront SettledAreSoundByRules }
    ensures agree { IsOfEachFront EqualHashesAgree }
{
    at_most_one_world();
}

/// On a router at rest the assignment subroutine, run once more with a due backoff for each pair without an assignment,
/// makes, changes and destroys no assignment, whatever the random words are (RFC 7695, section 4.1); and it comes to a
/// result, which takes no random word. Where a result makes, changes and destroys none, the router is at rest. On each
/// router it cannot be that it comes to no result.
pub fn rest_is_the_fixed_point()
    ensures unchanged { RestKeepsAssignments }
    ensures rests { UnchangedIsAtRest }
    ensures comes { RestHasARun }
    ensures runs { AnewHasARun }
{
    advertised_exists();
    pairs_are_ordered();
    rest_has_a_run();
    rest_is_unchanged();
    subroutine_has_a_result();
    subroutine_leaves();
    usable_is_unique();
    wishes_exist();
}

/// A settled and quiet router stays so, with the same assignments, marks of application aside, when time passes, when
/// a router ticks: one that it does not reach, or one that keeps and holds nothing which has come to its moment, and that
/// uses and wants the same delegated prefixes after the tick as before; and over a calm delivery.
pub fn quiet_homes_stay()
    ensures { QuietHomesStay }
{
    at_most_one_world();
    always_sound();
    always_attached();
    view_is_a_network();
    entries_are_as_known();
    moment_is_now();
    tick_keeps_the_identifier();
    calm_tick();
    used_where_assigned();
    view_of_later();
    usable_is_unique();
    common_link_of_later();
    advertised_of_later();
    advertised_of_unchanged();
    rest_stays();
    rest_changes_no_assignment();
    quiet_homes_stay_over_deliveries();
}

/// So it was over each event of a replayed world's trace.
pub fn quiet_homes_always_stay()
    ensures { QuietHomesAlwaysStay }
{
    at_most_one_world();
    each_event_is_a_step();
    quiet_homes_stay();
}

/// What a witness says refutes that a router is settled, or that it is quiet: then a router of its set is not at rest.
pub fn witness_refutes()
    ensures settled { WitnessRefutesSettled }
    ensures quiet { WitnessRefutesQuiet }
    ensures not_at_rest { WitnessNamesOneNotAtRest }
{
    pairs_are_ordered();
    rest_knows_no_order();
    usable_is_unique();
}

/// The first witness is one: at most one answer is the first by which a router is not settled, and in a replayed world
/// at most one is the first by which it is not quiet.
pub fn witness_is_unique()
    ensures settled { UnsettledIsOne }
    ensures quiet { UnquietIsOne }
{
    always_sound();
    answers_know_no_order();
    pairs_are_ordered();
    rest_knows_no_order();
    usable_is_unique();
}

/// In a replayed world all routers that a settled one reaches have one network state hash.
pub fn settled_have_one_hash()
    ensures { SettledHaveOneHash }
{
    at_most_one_world();
    always_sound();
    always_attached();
    view_is_a_network();
    entries_are_as_known();
    hash_is_of_leaves();
}

/// A settled and quiet router stays so, with the same assignments, over a delivery whose router keeps its identifier, and
/// which, if that router is one that it reaches, is of a status update with the router's own network state hash, by
/// multicast, from a peer of its endpoint.
pub fn quiet_homes_stay_over_deliveries()
    ensures { QuietStaysOverDeliveries }
{
    at_most_one_world();
    always_sound();
    always_attached();
    view_is_a_network();
    entries_are_as_known();
    moment_is_now();
    tick_keeps_the_identifier();
    calm_tick();
    used_where_assigned();
    view_of_later();
    usable_is_unique();
    common_link_of_later();
    advertised_of_later();
    advertised_of_unchanged();
    rest_stays();
    rest_changes_no_assignment();
    endpoints_follow();
    one_result();
    updates_of_peers_are_let_pass();
}

/// A router that is settled and quiet goes on so, with the same assignments: over time that passes, copies that are dropped,
/// calm ticks, and deliveries to those that it reaches of copies that were made since.
pub fn rest_goes_on()
    ensures event { RestGoesOn }
    ensures lasts { RestLasts }
{
    at_most_one_world();
    always_sound();
    always_attached();
    view_is_a_network();
    entries_are_as_known();
    moment_is_now();
    tick_keeps_the_identifier();
    calm_tick();
    used_where_assigned();
    view_of_later();
    usable_is_unique();
    common_link_of_later();
    advertised_of_later();
    advertised_of_unchanged();
    rest_stays();
    rest_changes_no_assignment();
    endpoints_follow();
    one_result();
    updates_of_peers_are_let_pass();
    ticks_send_status_updates();
    hash_is_of_leaves();
    changes_keep_hashed();
}

/// Where each peer of those that a settled and quiet router reaches was heard since a moment, the router stays so over what
/// happens less than 42 s after it, whatever is lost.
pub fn rest_lasts_while_heard()
    ensures { RestLastsWhileHeard }
{
    at_most_one_world();
    always_sound();
    always_attached();
    view_is_a_network();
    entries_are_as_known();
    moment_is_now();
    tick_keeps_the_identifier();
    calm_tick();
    used_where_assigned();
    view_of_later();
    usable_is_unique();
    common_link_of_later();
    advertised_of_later();
    advertised_of_unchanged();
    rest_stays();
    rest_changes_no_assignment();
    endpoints_follow();
    one_result();
    updates_of_peers_are_let_pass();
    ticks_send_status_updates();
    hash_is_of_leaves();
    changes_keep_hashed();
    own_interval_is_default();
    calm_tick_moves_ports();
}

/// A round without loss renews the contacts of peers, so a settled and quiet router stays so over the next one too.
pub fn round_renews()
    ensures round { RoundRenews }
    ensures rounds { RestGoesInRounds }
{
    at_most_one_world();
    always_sound();
    always_attached();
    view_is_a_network();
    entries_are_as_known();
    moment_is_now();
    tick_keeps_the_identifier();
    calm_tick();
    used_where_assigned();
    view_of_later();
    usable_is_unique();
    common_link_of_later();
    advertised_of_later();
    advertised_of_unchanged();
    rest_stays();
    rest_changes_no_assignment();
    endpoints_follow();
    one_result();
    peers_are_attached();
    updates_of_peers_are_let_pass();
    ticks_send_status_updates();
    hash_is_of_leaves();
    changes_keep_hashed();
    own_interval_is_default();
    calm_tick_moves_ports();
    list_is_unique();
    item_is_unique();
}

/// A settled and quiet router stays so, with the same assignments, while those that it reaches tick in turns that are less
/// than 22 s apart, and nothing is lost.
pub fn rest_goes_in_turns()
    ensures { RestGoesInTurns }
{
    at_most_one_world();
    always_sound();
    always_attached();
    view_is_a_network();
    entries_are_as_known();
    moment_is_now();
    tick_keeps_the_identifier();
    calm_tick();
    used_where_assigned();
    view_of_later();
    usable_is_unique();
    common_link_of_later();
    advertised_of_later();
    advertised_of_unchanged();
    rest_stays();
    rest_changes_no_assignment();
    endpoints_follow();
    one_result();
    peers_are_attached();
    updates_of_peers_are_let_pass();
    ticks_send_status_updates();
    hash_is_of_leaves();
    changes_keep_hashed();
    own_interval_is_default();
    calm_tick_moves_ports();
    list_is_unique();
    item_is_unique();
    ticks_have_sent();
}

/// A settled and quiet router whose set are all running routers, and for which nothing ends until a moment, is calm after 20 s
/// without loss, if its peers are linked and were heard lately; and a calm one stays calm over turns until then.
pub fn calm_comes_and_lasts()
    ensures { CalmComesAndLasts }
{
    at_most_one_world();
    always_sound();
    always_attached();
    view_is_a_network();
    entries_are_as_known();
    moment_is_now();
    tick_keeps_the_identifier();
    calm_tick();
    used_where_assigned();
    view_of_later();
    usable_is_unique();
    common_link_of_later();
    advertised_of_later();
    advertised_of_unchanged();
    rest_stays();
    rest_changes_no_assignment();
    endpoints_follow();
    one_result();
    peers_are_attached();
    updates_of_peers_are_let_pass();
    ticks_send_status_updates();
    hash_is_of_leaves();
    changes_keep_hashed();
    own_interval_is_default();
    calm_tick_moves_ports();
    list_is_unique();
    item_is_unique();
    ticks_have_sent();
    usable_of_later();
    ends_of_later();
    calm_tick_leaves_ages();
}

/// So it is from each moment of a replayed world's past on.
pub fn calm_homes_always_stay()
    ensures { CalmHomesAlwaysStay }
{
    at_most_one_world();
    always_sound();
    calm_comes_and_lasts();
}
