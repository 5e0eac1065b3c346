//! Laws of the rules, and of what holds of a router. Each is the contract of a function that does nothing: call it to
//! know its law.

ghost use Rattle.std.specs.Prelude.{◌≡◌, ℕ, List, [], Option};
ghost use Rattle.hn_own.specs.Addresses.{OwnAddress};
ghost use Rattle.hn_base.specs.declared.caps.Caps.{Caps};
ghost use Rattle.hn_base.specs.declared.ids.EpId.{EpId};
ghost use Rattle.hn_base.specs.Prefix.{PlainPrefix};
ghost use Rattle.hn_tlv.specs.Grammar.{PlainTlv};
ghost use Rattle.hn_rules.specs.declared.running.Origin.{Origin};
ghost use Rattle.hn_rules.specs.Arrival.{IsArrival};
ghost use Rattle.hn_rules.specs.Assigning.{IsAssigning};
ghost use Rattle.hn_rules.specs.Delegating.{delegating, withdrawing, ending};
ghost use Rattle.hn_rules.specs.Given.{IsPrivateLength};
ghost use Rattle.hn_rules.specs.Events.{IsAttaching, detaching, setting_caps, setting_private, setting_addresses, IsRestarting};
ghost use Rattle.hn_rules.specs.Laws.{HashIsOfLeaves, AssignedIsPublished, ItemsArePublished, OwnVersionIsSaid, OwnAddressesAreSaid};
ghost use Rattle.hn_rules.specs.Laws.{ViewIsNetwork, OwnPeersAreOfEndpoints, PrivatePostIsAlone, EntriesAreAsKnown, RouterStaysLater};
ghost use Rattle.hn_rules.specs.Laws.{NextDueIsOne, NextDueStays, KeptUndueReaches, UndueStays, KeepsRouter, KeepsWell, KeepsEndpoints};
ghost use Rattle.hn_rules.specs.Laws.{RefreshMakesRouter, AssigningKeeps, DelegatingKeeps, AttachingKeeps, AddressingKeeps, MakesChanges};
ghost use Rattle.hn_rules.specs.Laws.{DelegatingMakesChanges, AddressingMakesChanges, ChangesKeepWell, ChangesKeepLimit, ChangesOnlyAdd};
ghost use Rattle.hn_rules.specs.Laws.{UndueIsIdle, IdleIsUndue, IdleUntilDue, RefreshRests, RouterIsHashed, ChangesKeepHashed};
ghost use Rattle.hn_rules.specs.Laws.{ChangesKeepShort, ChangesKeepBytes, ChangesKeepGenuine, TickOfNothingIsUndue, HasAResult};
ghost use Rattle.hn_rules.specs.Laws.{ArrivalHasAResult, AssigningHasAResult, WishesExist, IdleWhileUndue, PassingKeepsUndue};
ghost use Rattle.hn_rules.specs.Refresh.{IsRefresh};
ghost use Rattle.hn_rules.specs.KeptAtRest.{KeepsId, CalmTick, UsedWhereAssigned, ViewOfLater};
ghost use Rattle.hn_rules.specs.Router.{IsRouter, IsWell};
ghost use Rattle.hn_rules.specs.Rules.{IsExactRule, IsSole};
ghost use Rattle.hn_rules.specs.Tick.{IsExpiry, forgetting, IsPortsTick};
ghost use Rattle.hn_rules.specs.Ticks.{IsTick};
ghost use Rattle.hn_rules.specs.Updates.{PeersAreAttached, PeersUpdatesPass, TicksSendUpdates, OwnIntervalIsDefault, CalmTickLeavesAges, CalmTickMovesPorts, TicksHaveSent};

use hn_assign::{
    idle_run_stays, pairs_are_ordered, subroutine_has_a_result, subroutine_has_one_result,
    subroutine_keeps, subroutine_leaves,
};
use hn_base::{NodeId, ascending_is_unique};
use hn_data::items_are_unique;
use hn_deleg::{
    ends_of_later, usable_are_prefixes, usable_exists, usable_is_unique, usable_of_later,
    used_by_candidates,
};
use hn_dncp::{
    packing_exists, packing_is_not_empty, packing_is_read, packing_is_short, packing_is_unique,
    peers_stay, undue_port, undue_port_stays,
};
use hn_graph::{own_is_reachable, reachability_follows, reachability_stays, reachable_is_a_node};
use hn_hash::hash_has_eight_bytes;
use hn_link::{common_link_exists, common_link_is_unique, common_link_of_later};
use hn_own::{
    addresses_stay, ending_is_a_moment, ending_leaves, held_without_private, own_data_exists,
    own_data_is_unique, own_items_fit, own_prefixes_stay, posts_ascend,
};
use hn_store::{
    acceptance_exists, acceptance_is_unique, acceptance_keeps_table, forgetting_is_a_moment,
    forgetting_leaves, held_is_of_an_entry, held_was_brought, loss_keeps_table, own_stays,
};
use hn_timers::expiry_is_a_moment;
use hn_tlv::{list_is_of_bytes, list_is_unique, spelling_is_prefix_free};
use hn_typed::{item_fault_is_unique, item_is_unique, item_or_fault, written_is_read};

/// The network state hash of a router is that of the leaves of the nodes that it reaches.
pub fn hash_is_of_leaves()
    ensures { HashIsOfLeaves }
{
    held_is_of_an_entry();
}

/// What others see of a router's assignments is what it holds: the Assigned-Prefixes of its node data are those of the
/// assignments that it publishes.
pub fn assigned_is_published()
    ensures { AssignedIsPublished }
{
    list_is_of_bytes();
    spelling_is_prefix_free();
    item_is_unique();
    written_is_read();
    items_are_unique();
}

/// The items of a router's node data are its own items.
pub fn items_are_published()
    ensures { ItemsArePublished }
{
    list_is_of_bytes();
    spelling_is_prefix_free();
    item_is_unique();
    written_is_read();
    items_are_unique();
}

/// The node data of a router have an HNCP-Version.
pub fn own_version_is_said()
    ensures { OwnVersionIsSaid }
{
    list_is_of_bytes();
    spelling_is_prefix_free();
    item_is_unique();
    written_is_read();
    items_are_unique();
}

/// The Node-Addresses of a router's node data are its own addresses.
pub fn own_addresses_are_said()
    ensures { OwnAddressesAreSaid }
{
    list_is_of_bytes();
    spelling_is_prefix_free();
    item_is_unique();
    written_is_read();
    items_are_unique();
}

/// Each own Peer that a router has published is of an attached endpoint.
pub fn own_peers_are_of_endpoints()
    ensures { OwnPeersAreOfEndpoints }
{
    list_is_of_bytes();
    spelling_is_prefix_free();
    item_is_unique();
    written_is_read();
    items_are_unique();
}

/// The private post of a router is alone on its Common Link.
pub fn private_post_is_alone()
    ensures { PrivatePostIsAlone }
{
    list_is_of_bytes();
    spelling_is_prefix_free();
    item_is_unique();
    written_is_read();
    items_are_unique();
}

/// The nodes that a router sees are a network with its own node.
pub fn view_is_a_network()
    ensures { ViewIsNetwork }
{
    own_is_reachable();
}

/// There is a list of what a router asks for: the delegated prefixes that it uses, and a wish for each pair.
pub fn wishes_exist()
    ensures { WishesExist }
{
    usable_exists();
    usable_are_prefixes();
    common_link_exists();
    common_link_is_unique();
    pairs_are_ordered();
    view_is_a_network();
}

/// Of its own identifier a router knows its own node, and of another that it holds what it holds of it. What it knows
/// of an identifier has that identifier.
pub fn entries_are_as_known()
    ensures { EntriesAreAsKnown }
{}

/// While time passes and nothing happens, a router stays one.
pub fn router_stays_later()
    ensures { RouterStaysLater }
{}

/// The moment at which something is next due is one.
pub fn next_due_is_one()
    ensures { NextDueIsOne }
{}

/// It stays the same while time passes before it and nothing happens.
pub fn next_due_stays()
    ensures { NextDueStays }
{
    held_is_of_an_entry();
    ends_of_later();
}

/// While nothing that a router keeps or holds comes to its moment, the same nodes are reachable.
pub fn kept_undue_reaches()
    ensures { KeptUndueReaches }
{
    reachability_stays();
}

/// Where each part of a tick leaves a router as it is, it does so until something is due.
pub fn undue_stays()
    ensures { UndueStays }
{
    expiry_is_a_moment();
    undue_port_stays();
    ending_is_a_moment();
    forgetting_is_a_moment();
    held_is_of_an_entry();
    reachability_stays();
    usable_of_later();
    common_link_of_later();
    idle_run_stays();
}

/// Where each part of a tick leaves a router as it is, the tick does nothing.
pub fn undue_is_idle()
    ensures { UndueIsIdle }
{
    ending_leaves();
    forgetting_leaves();
    undue_port();
}

/// Where a tick does nothing, each part of it left the router as it is.
pub fn idle_is_undue()
    ensures { IdleIsUndue }
{
    ending_leaves();
    forgetting_leaves();
    undue_port();
    packing_is_not_empty();
    ascending_is_unique::<NodeId>();
}

/// Where nothing came of a tick and these parts of the router are as they were, each part of the tick left it as it is.
pub fn tick_of_nothing_is_undue()
    ensures { TickOfNothingIsUndue }
{
    ending_leaves();
    forgetting_leaves();
    undue_port();
    packing_is_not_empty();
    ascending_is_unique::<NodeId>();
}

/// Where a tick does nothing, so it is until something is due, and what is next due stays.
pub fn idle_until_due()
    ensures { IdleUntilDue }
{
    undue_is_idle();
    idle_is_undue();
    undue_stays();
    next_due_stays();
}

/// Where a tick does nothing, and nothing is due before a moment, both stay so while time passes before that moment.
pub fn idle_while_undue()
    ensures { IdleWhileUndue }
{
    undue_is_idle();
    idle_is_undue();
    undue_stays();
    held_is_of_an_entry();
    ends_of_later();
}

/// Both stay so too where an arrival is let pass before that moment: a contact that is renewed expires later than it did.
pub fn passing_keeps_undue()
    ensures { PassingKeepsUndue }
{
    idle_while_undue();
    idle_is_undue();
    undue_is_idle();
    expiry_is_a_moment();
}

/// Where nothing that a router keeps has come to its moment, and the assignment subroutine would change nothing, a tick
/// leaves what the router says of itself, its posts, the nodes that it reaches and its assignments, marks of application
/// aside.
pub fn calm_tick()
    ensures { CalmTick }
{
    reachability_stays();
    ending_leaves();
    rules_have_one_result();
}

/// Where nothing that a router keeps has come to its moment, and it uses and wants after a tick what it did before, it used
/// the same delegated prefixes where the tick assigned prefixes, and what it had not wanted it did not want there. So it is
/// whatever the tick publishes anew.
pub fn used_where_assigned()
    ensures { UsedWhereAssigned }
{
    reachability_stays();
    reachability_follows();
    ending_leaves();
    rules_have_one_result();
    used_by_candidates();
    router_stays_later();
    rules_keep_a_router();
    rules_keep_the_rest();
    refresh_makes_a_router();
    held_is_of_an_entry();
    list_is_of_bytes();
    list_is_unique();
    spelling_is_prefix_free();
    item_is_unique();
    item_fault_is_unique();
    item_or_fault();
    written_is_read();
    items_are_unique();
}

/// While time passes and nothing happens, a router sees the same network.
pub fn view_of_later()
    ensures { ViewOfLater }
{
    held_is_of_an_entry();
}

/// A tick keeps the identifier.
pub fn tick_keeps_the_identifier()
    ensures { KeepsId IsTick }
{}

/// Right after a refresh another changes nothing.
pub fn refresh_after_a_refresh_rests()
    ensures { RefreshRests }
{}

/// Each run of these rules is a list of elementary changes, which take from a datagram what its TLVs say.
pub fn rules_make_changes()
    ensures refresh { MakesChanges [] IsRefresh }
    ensures arrival { (from : Origin) (tlvs : List PlainTlv) → MakesChanges tlvs (IsArrival from tlvs) }
    ensures expiry { MakesChanges [] IsExpiry }
    ensures ending { MakesChanges [] (λ b a. a ≡ ending b) }
    ensures forgetting { MakesChanges [] (λ b a. a ≡ forgetting b) }
    ensures assigning { MakesChanges [] IsAssigning }
    ensures ports { MakesChanges [] IsPortsTick }
    ensures delegating { DelegatingMakesChanges }
    ensures withdrawing { (prefix : PlainPrefix) → MakesChanges [] (λ b a. a ≡ withdrawing prefix b) }
    ensures caps { (caps : Caps) → MakesChanges [] (λ b a. a ≡ setting_caps caps b) }
    ensures private { (private : Option ℕ) → IsPrivateLength private → MakesChanges [] (λ b a. a ≡ setting_private private b) }
    ensures addressing { AddressingMakesChanges }
    ensures restarting { MakesChanges [] IsRestarting }
{}

/// Each elementary change keeps what holds of a router beside what a refresh makes.
pub fn changes_keep_the_rest()
    ensures { ChangesKeepWell }
{
    peers_stay();
    held_is_of_an_entry();
    acceptance_keeps_table();
    own_stays();
    loss_keeps_table();
    own_prefixes_stay();
    pairs_are_ordered();
    subroutine_keeps();
    subroutine_leaves();
    posts_ascend();
    held_without_private();
    addresses_stay();
    list_is_of_bytes();
    spelling_is_prefix_free();
    item_is_unique();
    written_is_read();
    items_are_unique();
}

/// A refresh makes a router of a state of which the rest holds.
pub fn refresh_makes_a_router()
    ensures { RefreshMakesRouter }
{
    changes_keep_the_rest();
}

/// An arrival, the forgetting of lost nodes and what is due at the endpoints keep what holds of a router.
pub fn rules_keep_a_router()
    ensures arrival { (from : Origin) (tlvs : List PlainTlv) → KeepsRouter (IsArrival from tlvs) }
    ensures forgetting { KeepsRouter (λ b a. a ≡ forgetting b) }
    ensures ports { KeepsRouter IsPortsTick }
{
    changes_keep_the_rest();
    reachability_stays();
}

/// The other rules keep what holds of a router beside what a refresh makes.
pub fn rules_keep_the_rest()
    ensures expiry { KeepsWell IsExpiry }
    ensures ending { KeepsWell (λ b a. a ≡ ending b) }
    ensures assigning { AssigningKeeps }
    ensures delegating { DelegatingKeeps }
    ensures withdrawing { (prefix : PlainPrefix) → KeepsWell (λ b a. a ≡ withdrawing prefix b) }
    ensures attaching { AttachingKeeps }
    ensures detaching { (at : EpId) → KeepsWell (λ b a. a ≡ detaching at b) }
    ensures caps { (caps : Caps) → KeepsWell (λ b a. a ≡ setting_caps caps b) }
    ensures private { (private : Option ℕ) → IsPrivateLength private → KeepsWell (λ b a. a ≡ setting_private private b) }
    ensures addressing { AddressingKeeps }
    ensures restarting { KeepsWell IsRestarting }
{
    changes_keep_the_rest();
    addresses_stay();
}

/// Over each stream of words each rule has exactly one result, where its router is whole; an arrival has at most one, and one
/// where its TLVs are some.
fn rules_are_exact()
    ensures refresh { IsExactRule (λ r. IsWell r.state) IsRefresh }
    ensures one_arrival { (from : Origin) (tlvs : List PlainTlv) → IsSole (IsArrival from tlvs) }
    ensures arrival { ArrivalHasAResult }
    ensures expiry { IsExactRule (λ r. IsWell r.state) IsExpiry }
    ensures assigning { IsExactRule (λ r. IsRouter r.state) IsAssigning }
    ensures ports { IsExactRule (λ r. IsWell r.state) IsPortsTick }
    ensures tick { IsExactRule (λ r. IsWell r.state) IsTick }
    ensures attaching { (at : EpId) → IsExactRule (λ r. IsWell r.state) (IsAttaching at) }
    ensures restarting { IsExactRule (λ r. IsWell r.state) IsRestarting }
{
    changes_keep_the_rest();
    own_items_fit();
    own_data_exists();
    own_data_is_unique();
    ascending_is_unique::<NodeId>();
    reachable_is_a_node();
    acceptance_exists();
    acceptance_is_unique();
    packing_exists();
    packing_is_unique();
    item_or_fault();
    item_is_unique();
    item_fault_is_unique();
    usable_exists();
    usable_is_unique();
    usable_are_prefixes();
    common_link_exists();
    common_link_is_unique();
    pairs_are_ordered();
    subroutine_has_a_result();
    subroutine_has_one_result();
    view_is_a_network();
    refresh_makes_a_router();
    rules_keep_a_router();
}

/// Over one stream of words each rule has at most one result.
pub fn rules_have_one_result()
    ensures refresh { IsSole IsRefresh }
    ensures arrival { (from : Origin) (tlvs : List PlainTlv) → IsSole (IsArrival from tlvs) }
    ensures expiry { IsSole IsExpiry }
    ensures assigning { IsSole IsAssigning }
    ensures ports { IsSole IsPortsTick }
    ensures tick { IsSole IsTick }
    ensures attaching { (at : EpId) → IsSole (IsAttaching at) }
    ensures restarting { IsSole IsRestarting }
{
    rules_are_exact();
}

/// Over each stream of words each rule has a result: it cannot be that there is none. With `rules_have_one_result` there is
/// exactly one.
pub fn rules_have_a_result()
    ensures refresh { HasAResult IsRefresh }
    ensures arrival { ArrivalHasAResult }
    ensures expiry { HasAResult IsExpiry }
    ensures assigning { AssigningHasAResult }
    ensures ports { HasAResult IsPortsTick }
    ensures tick { HasAResult IsTick }
    ensures attaching { (at : EpId) → HasAResult (IsAttaching at) }
    ensures restarting { HasAResult IsRestarting }
{
    rules_are_exact();
}

/// These rules keep the moment, and which endpoints are attached.
pub fn rules_keep_the_endpoints()
    ensures refresh { KeepsEndpoints IsRefresh }
    ensures arrival { (from : Origin) (tlvs : List PlainTlv) → KeepsEndpoints (IsArrival from tlvs) }
    ensures expiry { KeepsEndpoints IsExpiry }
    ensures assigning { KeepsEndpoints IsAssigning }
    ensures ports { KeepsEndpoints IsPortsTick }
    ensures restarting { KeepsEndpoints IsRestarting }
{}

/// No elementary change changes how many nodes the table may hold.
pub fn changes_keep_the_limit()
    ensures { ChangesKeepLimit }
{}

/// No elementary change takes back what came of the event before it.
pub fn changes_only_add()
    ensures { ChangesOnlyAdd }
{}

/// The network state hash of a router has 8 bytes, and each elementary change keeps that.
pub fn changes_keep_hashed()
    ensures router { RouterIsHashed }
    ensures each { ChangesKeepHashed }
{
    changes_keep_the_rest();
    hash_has_eight_bytes();
}

/// What a router answers and sends is short, and each elementary change keeps that.
pub fn changes_keep_short()
    ensures { ChangesKeepShort }
{
    changes_keep_hashed();
    hash_has_eight_bytes();
    held_is_of_an_entry();
    packing_is_short();
}

/// What a router answers is what is written for a TLV, and each datagram that it sends is a list of bytes. Each elementary
/// change keeps that.
pub fn changes_keep_bytes()
    ensures { ChangesKeepBytes }
{
    changes_keep_hashed();
    hash_has_eight_bytes();
    held_is_of_an_entry();
    packing_is_read();
    list_is_of_bytes();
    spelling_is_prefix_free();
    item_is_unique();
    written_is_read();
    items_are_unique();
}

/// What a router holds, answers and sends was published, where what arrives was; or two texts that were published collide.
pub fn changes_keep_genuine()
    ensures { ChangesKeepGenuine }
{
    changes_only_add();
    changes_keep_hashed();
    held_was_brought();
    held_is_of_an_entry();
    hash_has_eight_bytes();
    packing_is_read();
    list_is_of_bytes();
    list_is_unique();
    spelling_is_prefix_free();
    item_is_unique();
    written_is_read();
    items_are_unique();
}

/// A status update by multicast with the router's own network state hash, from a peer of the endpoint at which it arrives,
/// is let pass, where no node data have come to their age.
pub fn updates_of_peers_are_let_pass()
    ensures { PeersUpdatesPass }
{
    reachability_stays();
    list_is_of_bytes();
    spelling_is_prefix_free();
    item_is_unique();
    written_is_read();
    items_are_unique();
}

/// Such an update arrives at an endpoint that is attached.
pub fn peers_are_attached()
    ensures { PeersAreAttached }
{
    list_is_of_bytes();
    spelling_is_prefix_free();
    item_is_unique();
    written_is_read();
    items_are_unique();
}

/// A tick sends status updates by multicast on its endpoints, and nothing else.
pub fn ticks_send_status_updates()
    ensures { TicksSendUpdates }
{
    packing_is_read();
    written_is_read();
}

/// Node data that a router publishes promise no keep-alive interval.
pub fn own_interval_is_default()
    ensures { OwnIntervalIsDefault }
{
    list_is_of_bytes();
    spelling_is_prefix_free();
    item_is_unique();
    written_is_read();
    items_are_unique();
}

/// Where nothing that a router keeps has come to its moment, a tick keeps the peers of each endpoint, with their contacts, and
/// an endpoint that last sent at that moment sent something.
pub fn calm_tick_moves_ports()
    ensures { CalmTickMovesPorts }
{
    reachability_stays();
    ending_leaves();
    rules_have_one_result();
    packing_is_not_empty();
}

/// Where nothing that a router keeps has come to its moment, a tick leaves its own delegated prefixes, and it holds no new node.
pub fn calm_tick_leaves_ages()
    ensures { CalmTickLeavesAges }
{
    reachability_stays();
    ending_leaves();
    rules_have_one_result();
}

/// After a tick each endpoint of a router last sent less than 20 s ago.
pub fn ticks_have_sent()
    ensures { TicksHaveSent }
{
    router_stays_later();
    rules_keep_the_rest();
    refresh_makes_a_router();
    rules_keep_a_router();
    rules_keep_the_endpoints();
}
