ghost use Rattle.std.specs.Prelude.{◌≡◌};
ghost use Rattle.hn_deleg.specs.Used.{whole_seconds};

use hn_prefix::Prefix;

/// A delegated prefix with its remaining lifetimes in milliseconds; 2^64 - 1 is one that never ends.
#[derive(Clone, Copy)]
pub struct Delegated {
    pub prefix: Prefix,
    pub valid: u64,
    pub preferred: u64,
}

/// A remaining lifetime in whole seconds, rounded down; 4294967295 for one that never ends. Never allocates.
pub fn whole_seconds(ms: u64) -> u64
    ensures { result ≡ whole_seconds ms }
{
    if ms == u64::MAX {
        4_294_967_295
    } else {
        ms / 1000
    }
}
