//! The law. It is the contract of a function that does nothing: call it to know the law.

ghost use Rattle.hn_told.specs.Told.{AlwaysToldApart};

use hn_advert::{advert_is_unique, written_is_read};
use hn_deleg::{lifetimes_fit, usable_is_unique, usable_never_overlap};
use hn_plain::{plain_routers_are_the_same, plainly_sound};
use hn_world::{always_sound, at_most_one_world};

/// At each moment of a replayed world's past, on the links of each running router that is settled and quiet, hosts on
/// different links are told no prefixes that overlap, by whatever bytes of Router Advertisements. On one link prefixes that
/// overlap are one and the same, and each router on the link holds it.
pub fn hosts_are_told_apart()
    ensures { AlwaysToldApart }
{
    plainly_sound();
    plain_routers_are_the_same();
    always_sound();
    at_most_one_world();
    usable_is_unique();
    usable_never_overlap();
    lifetimes_fit();
    written_is_read();
    advert_is_unique();
}
