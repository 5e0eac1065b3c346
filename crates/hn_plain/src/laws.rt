//! The laws. Each is the contract of a function that does nothing: call it to know the law.

ghost use Rattle.hn_plain.specs.Same.{SaysItsItems, UsesTheSame, WantsTheSame, AdvertisesTheSame, SeesTheSameFree, LinksTheSame, RestsAlike};
ghost use Rattle.hn_plain.specs.Same.{SettledAlike, QuietAlike, SoundAlike, AlwaysPlainlySound};

use hn_assign::{advertised_exists, lines_exclude_each_other, pairs_are_ordered};
use hn_audit::{settled_are_always_sound, settled_elect_alike};
use hn_deleg::{usable_are_prefixes, usable_exists, usable_is_unique, used_by_candidates};
use hn_prefix::prefixes_are_ranges;
use hn_rules::{entries_are_as_known, view_is_a_network, wishes_exist};
use hn_typed::{item_fault_is_unique, item_is_unique, item_or_fault};
use hn_world::{always_sound, at_most_one_world};

/// What node data plainly say are their items. A router plainly uses what it uses, and wants, has on its links, sees
/// advertised and sees free what it does; and it is plainly at rest if and only if it is at rest.
pub fn plain_routers_are_the_same()
    ensures said { SaysItsItems }
    ensures used { UsesTheSame }
    ensures wanted { WantsTheSame }
    ensures linked { LinksTheSame }
    ensures advertised { AdvertisesTheSame }
    ensures free { SeesTheSameFree }
    ensures rest { RestsAlike }
{
    item_is_unique();
    item_fault_is_unique();
    item_or_fault();
    usable_exists();
    usable_is_unique();
    usable_are_prefixes();
    used_by_candidates();
    prefixes_are_ranges();
    advertised_exists();
    lines_exclude_each_other();
    pairs_are_ordered();
    view_is_a_network();
    entries_are_as_known();
    wishes_exist();
}

/// In a replayed world a running router is plainly settled if and only if it is settled, and plainly quiet if and only if it
/// is quiet. Where it is settled, it is plainly sound if and only if it is sound.
pub fn plain_homes_are_the_same()
    ensures settled { SettledAlike }
    ensures quiet { QuietAlike }
    ensures sound { SoundAlike }
{
    item_is_unique();
    item_fault_is_unique();
    item_or_fault();
    usable_exists();
    usable_is_unique();
    usable_are_prefixes();
    used_by_candidates();
    prefixes_are_ranges();
    advertised_exists();
    lines_exclude_each_other();
    pairs_are_ordered();
    view_is_a_network();
    entries_are_as_known();
    wishes_exist();
    always_sound();
    settled_elect_alike();
}

/// At each moment of a replayed world's past each running router that is plainly settled and quiet is plainly sound.
pub fn plainly_sound()
    ensures { AlwaysPlainlySound }
{
    plain_homes_are_the_same();
    at_most_one_world();
    settled_are_always_sound();
}
