//! Laws of worlds that are the replay of their trace. Each is the contract of a function that does nothing.

ghost use Rattle.std.specs.Prelude.{◌<◌, List, length};
ghost use Rattle.hn_rules.specs.declared.done.Note.{Note};
ghost use Rattle.hn_world.specs.declared.event.Traced.{Traced};
ghost use Rattle.hn_world.specs.declared.parts.Parts.{Parts};
ghost use Rattle.hn_world.specs.Names.{NamesDiffer};
ghost use Rattle.hn_world.specs.Replay.{IsReplayed, IsSoundWorld, Always};
ghost use Rattle.hn_world.specs.Step.{Step};
ghost use Rattle.hn_world.specs.Within.{AreWithinLimits, RouterIsWithinLimits};
ghost use Rattle.hn_world.specs.Authentic.{AuthenticUnlessInjected};
ghost use Rattle.hn_world.specs.Existing.{StepExists, ReplayedStepExists, AgreementExists, RoutersAgreeSomehow};
ghost use Rattle.hn_world.specs.Leaves.{EqualHashesAgree};
ghost use Rattle.hn_world.specs.Laws.{StepIsUnique, EachEventIsEntered, EachEventIsAStep, AgreementIsUnique};
ghost use Rattle.hn_world.specs.Laws.{AtMostOneWorld, WorldHasItsTrace, WorldHasItsVersion, WorldIsSound, AlwaysAttached, CopiesHaveReceivers, CopiesAreBytes};

use hn_hash::{equal_hashes_agree_or_collide, hash_has_eight_bytes};
use hn_router::{
    endpoints_follow, event_has_a_result, genuine_stays, limit_stays, moment_is_now, new_exists,
    new_is_router, new_is_unique, one_result, router_stays, sends_are_bytes, sends_are_short,
};
use hn_rules::hash_is_of_leaves;

/// From one world, with one event and one stream of words that a draw tells, there is at most one result.
pub fn step_is_unique()
    ensures { StepIsUnique }
{
    one_result();
    new_is_unique();
}

/// Over each stream of random words an accepted event has a result: it cannot be that there is none. With `step_is_unique`
/// there is exactly one. In a replayed world nothing is asked of the copy that is delivered.
pub fn step_exists()
    ensures sound { StepExists }
    ensures replayed { ReplayedStepExists }
{
    event_has_a_result();
    new_exists();
    always_sound();
    copies_are_bytes();
}

/// Each event is entered at the end of the trace, which had fewer than 1,000,000.
pub fn each_event_is_entered()
    ensures entered { EachEventIsEntered }
    ensures room { (t : Traced) (notes : List Note) (before after : Parts) → Step t notes before after → length before.trace < 1000000 }
{}

/// Each event of a replayed world's trace was a step from a world of its past to the next one.
pub fn each_event_is_a_step()
    ensures { EachEventIsAStep }
{}

/// Two lists of leaves agree in one way.
pub fn agreement_is_unique()
    ensures { AgreementIsUnique }
{}

/// Two lists of leaves whose sequence numbers have 32 bits agree in some way, and so do two routers of a replayed world: it
/// cannot be that they do not. With `agreement_is_unique` they agree in exactly one way.
pub fn agreement_exists()
    ensures numbered { AgreementExists }
    ensures routers { RoutersAgreeSomehow }
{
    equal_hashes_agree_or_collide();
    hash_has_eight_bytes();
    hash_is_of_leaves();
    always_sound();
}

/// A trace leads to at most one world, and that has this trace and its version.
pub fn at_most_one_world()
    ensures one { AtMostOneWorld }
    ensures trace { WorldHasItsTrace }
    ensures version { WorldHasItsVersion }
{
    one_result();
    new_is_unique();
}

/// Each router of a world is one, and no later than the world, at each moment of the world's past.
pub fn always_sound()
    ensures sound { WorldIsSound }
    ensures always { (w : Parts) → IsReplayed w → Always IsSoundWorld w }
{
    new_is_router();
    router_stays();
    moment_is_now();
}

/// At each moment of a world's past, two routers with equal network state hashes hold equal sequence numbers and node
/// data in node order, or a collision of the hash is among what they hash.
pub fn equal_hashes_always_agree()
    ensures { (w : Parts) → IsReplayed w → Always EqualHashesAgree w }
{
    new_is_router();
    router_stays();
    moment_is_now();
    hash_is_of_leaves();
    equal_hashes_agree_or_collide();
}

/// At each moment of a world's past, each router has the endpoints that are attached, and no two of them on one link.
pub fn always_attached()
    ensures { AlwaysAttached }
{
    endpoints_follow();
}

/// No two routers of a world have one name, and so it was at each moment of the world's past.
pub fn names_differ()
    ensures now { (w : Parts) → IsReplayed w → NamesDiffer w.members }
    ensures always { (w : Parts) → IsReplayed w → Always (λ past. NamesDiffer past.members) w }
{}

/// Each copy goes to a router that is there.
pub fn copies_have_receivers()
    ensures { CopiesHaveReceivers }
{}

/// Each copy is of bytes.
pub fn copies_are_bytes()
    ensures { CopiesAreBytes }
{
    new_is_router();
    router_stays();
    moment_is_now();
    sends_are_bytes();
}

/// A router, also one that is served by itself, is within the limits of a version whose limit its table has: so many other
/// nodes with at most 60,000 bytes each, 16 endpoints with 64 peers each, 8 delegated prefixes, 64 addresses, 544
/// assignments, and less than 36,864 bytes of its own.
pub fn router_is_within_limits()
    ensures { RouterIsWithinLimits }
{}

/// At each moment of a world's past its routers are within the limits of its version, and so is each datagram that was
/// ever sent.
pub fn always_within_limits()
    ensures now { (w : Parts) → IsReplayed w → AreWithinLimits w }
    ensures always { (w : Parts) → IsReplayed w → Always AreWithinLimits w }
{
    new_is_router();
    router_stays();
    moment_is_now();
    sends_are_short();
    limit_stays();
}

/// What routers hold was published, or two texts that were published collide, where nothing was injected; so it was at
/// each moment of the world's past.
pub fn always_authentic()
    ensures now { (w : Parts) → IsReplayed w → AuthenticUnlessInjected w }
    ensures always { (w : Parts) → IsReplayed w → Always AuthenticUnlessInjected w }
{
    new_is_router();
    router_stays();
    moment_is_now();
    genuine_stays();
}
