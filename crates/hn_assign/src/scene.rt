ghost use Rattle.std.specs.Prelude.{◌≡◌, ◌≤◌, ◌↔◌, IsTrue, IfSome, IfNone};
ghost use Rattle.hn_assign.specs.Scene.{plain_scene, IsBestFor, IsValidFor, IsFreeFor, HasNoFreeFor, IsFirstFreeFor};
ghost use Rattle.hn_assign.specs.Scene.{new_assigned};

use crate::advertised::Advertised;
use crate::index::Index;
use hn_base::{Moment, NodeId};
use hn_pair::{Assigned, Wish};
use hn_prefix::Prefix;

/// What a pair is judged by: the router and the moment, the wish for the pair, and the advertised prefixes.
#[derive(Clone, Copy)]
pub struct Scene<'a> {
    pub own: NodeId,
    pub now: Moment,
    pub wish: &'a Wish,
    pub known: &'a Index,
}

impl Scene<'_> {
    /// The best prefix for the pair (RFC 7695, section 4.1); `None` if and only if there is none. Never allocates.
    pub fn best(&self) -> Option<Advertised>
        ensures { IsBestFor (plain_scene self.entry.now) result }
    {
        let common = self.wish.common.as_slice();
        self.known.best(self.own, common, &self.wish.delegated)
    }

    /// Whether an assignment of the pair is valid (RFC 7695, section 4.1). Never allocates.
    pub fn is_valid(&self, c: &Assigned) -> bool
        ensures { IsTrue result ↔ IsValidFor (plain_scene self.entry.now) c.now }
    {
        self.known.valid(self.own, self.wish.common.as_slice(), c)
    }

    /// The first free prefix for the pair, in cyclic order from a place.
    pub(crate) fn first_free(&self, start: u32) -> Option<Prefix>
        requires { self.now.wish.now.length ≤ 64 }
        ensures first { IfSome result (IsFirstFreeFor (plain_scene self.entry.now) start) }
        ensures free { IfSome result (IsFreeFor (plain_scene self.entry.now)) }
        ensures none { IfNone result (HasNoFreeFor (plain_scene self.entry.now)) }
    {
        self.known
            .first_free(&self.wish.delegated, u128::from(start), self.wish.length)
    }

    /// An assignment of the pair, from now on.
    pub(crate) fn assignment(&self, prefix: Prefix, published: Option<u8>) -> Assigned
        ensures { result ≡ new_assigned (plain_scene self.entry.now) prefix published }
    {
        Assigned {
            delegated: self.wish.delegated,
            endpoint: self.wish.endpoint,
            prefix,
            published,
            since: self.now,
            applied: false,
        }
    }
}
