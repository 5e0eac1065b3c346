ghost use Rattle.std.specs.Prelude.{◌≡◌};

use crate::assigned::{Assigned, Wish};
use crate::backoff::Backoff;
use hn_base::EpId;
use hn_prefix::Prefix;

/// A delegated prefix and an endpoint: what an assignment is for (RFC 7695, section 4.1). Ordered by the delegated
/// prefix, then the endpoint.
#[derive(Clone, Copy, PartialEq, Eq, PartialOrd, Ord)]
pub struct Pair {
    pub delegated: Prefix,
    pub endpoint: EpId,
}

/// What is for a pair.
pub trait Paired {
    ghost use Rattle.hn_pair.specs.declared.pair.Pair.{Pair};

    /// Its pair.
    ghost pair_of: { Self → Pair };

    /// Its pair.
    fn pair(&self) -> Pair
        ensures { result ≡ pair_of self.now };
}

impl Paired for Assigned {
    ghost use Rattle.hn_pair.specs.Pair.{assigned_pair};

    ghost pair_of = { assigned_pair };

    fn pair(&self) -> Pair {
        Pair {
            delegated: self.delegated,
            endpoint: self.endpoint,
        }
    }
}

impl Paired for Backoff {
    ghost use Rattle.hn_pair.specs.Pair.{backoff_pair};

    ghost pair_of = { backoff_pair };

    fn pair(&self) -> Pair {
        Pair {
            delegated: self.delegated,
            endpoint: self.endpoint,
        }
    }
}

impl Paired for Wish {
    ghost use Rattle.hn_pair.specs.Pair.{wish_pair};

    ghost pair_of = { wish_pair };

    fn pair(&self) -> Pair {
        Pair {
            delegated: self.delegated,
            endpoint: self.endpoint,
        }
    }
}
