//! Laws of usable prefixes. Each is the contract of a function that does nothing: call it to know its law.

ghost use Rattle.hn_deleg.specs.Candidates.{SameCandidatesSameUsed, PreferredIsAnnounced, PreferredWasSo};
ghost use Rattle.hn_deleg.specs.Laws.{UsableNeverOverlap, UsableIsUnique, UsableExists, UsableArePrefixes, LifetimesFit, InsideKeepsTheOrder, UsableOfLater, AgedAreTheSamePrefixes, UnwantedOfLater, EndsOfLater};

use hn_data::{items_are_unique, items_or_none};
use hn_prefix::{overlap_is_nesting, prefixes_are_ranges};

/// Two different usable prefixes never overlap.
pub fn usable_never_overlap()
    ensures { UsableNeverOverlap }
{
    overlap_is_nesting();
}

/// A view has at most one list of usable prefixes.
pub fn usable_is_unique()
    ensures { UsableIsUnique }
{}

/// A view has a list of usable prefixes.
pub fn usable_exists()
    ensures { UsableExists }
{
    items_or_none();
    items_are_unique();
    prefixes_are_ranges();
}

/// The usable prefixes are prefixes.
pub fn usable_are_prefixes()
    ensures { UsableArePrefixes }
{}

/// The lifetimes of a usable prefix, in whole seconds, fit 32 bits.
pub fn lifetimes_fit()
    ensures { LifetimesFit }
{}

/// Prefixes inside two different usable prefixes are in the order of these.
pub fn inside_keeps_the_order()
    ensures { InsideKeepsTheOrder }
{
    overlap_is_nesting();
    prefixes_are_ranges();
}

/// While time passes and no announced lifetime ends, the same prefixes are usable, with what is left of their lifetimes,
/// and the same ones are wanted.
pub fn usable_of_later()
    ensures usable { UsableOfLater }
    ensures prefixes { AgedAreTheSamePrefixes }
    ensures unwanted { UnwantedOfLater }
{}

/// While time passes, the ends of announced lifetimes that are still to come stay the same.
pub fn ends_of_later()
    ensures { EndsOfLater }
{}

/// Views with the same candidates have the same usable prefixes. The preferred lifetime of a usable prefix has not ended if
/// and only if that of one of its announcements has not; and while time passes, none begins again.
pub fn used_by_candidates()
    ensures used { SameCandidatesSameUsed }
    ensures preferred { PreferredIsAnnounced }
    ensures was { PreferredWasSo }
{}
