//! The laws of a home at rest (RFC 7695, section 4.1; RFC 7788, section 6.3).
//!
//! Each is the contract of a function that does nothing: call it to know its law.

ghost use Rattle.std.specs.Prelude.{◌≡◌, ◌≢◌, ◌⊎◌, ℕ, IsTrue, Contains};
ghost use Rattle.hn_base.specs.Prefix.{PlainPrefix, IsWithin, Overlaps};
ghost use Rattle.hn_pair.specs.declared.assigned.Assigned.{Assigned};
ghost use Rattle.hn_assign.specs.Best.{IsBest, HasNoBest, HasNoFree};
ghost use Rattle.hn_sound.specs.AtRest.{IsHomeAtRest};
ghost use Rattle.hn_sound.specs.Home.{Home, Endpoint, EndpointHasAssignment, HasPublished, advertised, common_link, key_at};
ghost use Rattle.hn_sound.specs.Laws.{AdvertisedIsExact, CommonLinkIsExact, RestKnowsNoOrder, HomeRestsAsSeen, HomeAtRestIsSound};
ghost use Rattle.hn_sound.specs.Premises.{Meets, IsHome};
ghost use Rattle.hn_sound.specs.Premises.Premise.{OneLink};
ghost use Rattle.hn_sound.specs.Sound.{IsGreatestOnLink, HasNoPublisher};

/// The advertised prefixes of a home are those that its routers publish, and the Common Link of an endpoint is the
/// endpoints on its link.
pub fn lists_are_exact()
    ensures advertised { AdvertisedIsExact }
    ensures common_link { CommonLinkIsExact }
{}

/// Rest is the same whatever the order in which a router keeps the advertised prefixes and a Common Link.
pub fn rest_knows_no_order()
    ensures { RestKnowsNoOrder }
{}

/// So a home is at rest if each router sees its own pairs at rest, in lists of its own.
pub fn home_rests_as_seen()
    ensures { HomeRestsAsSeen }
{}

/// Two published keys are equal only for one endpoint.
pub fn key_tells_endpoint()
    ensures { (home : Home) (e f : Endpoint) (d other : PlainPrefix) (c k : Assigned) (p q : ℕ)
        → Meets home OneLink → HasPublished home e d c p → HasPublished home f other k q
        → key_at p e ≡ key_at q f → e ≡ f }
{}

/// Of what is published on a link for a delegated prefix, the assignment of the greatest key is the best one for
/// every other endpoint on the link, whether the home is at rest or not.
pub fn greatest_key_is_best()
    ensures best { (home : Home) (e f : Endpoint) (d : PlainPrefix) (c : Assigned) (p : ℕ)
        → IsHome home → IsGreatestOnLink home e d c p
        → Contains home.endpoints f → f.link ≡ e.link → f ≢ e
        → IsBest (advertised home) f.node.0 (common_link home f) d
        (record { key = key_at p e; prefix = c.prefix }) }
    ensures one_is_greatest { (home : Home) (link : ℕ) (d : PlainPrefix)
        → ((e : Endpoint) × (c : Assigned) × (p : ℕ) × (e.link ≡ link) × IsGreatestOnLink home e d c p)
        ⊎ HasNoPublisher home link d }
{}

/// In a home at rest a link has at most one published assignment for a delegated prefix, so none is published beside
/// a best.
pub fn link_has_one_publisher()
    ensures one { (home : Home) (e f : Endpoint) (d : PlainPrefix) (c k : Assigned) (p q : ℕ)
        → IsHome home → IsHomeAtRest home
        → HasPublished home e d c p → HasPublished home f d k q → e.link ≡ f.link
        → (e ≡ f) × (c ≡ k) }
    ensures not_beside_a_best { (home : Home) (e : Endpoint) (d : PlainPrefix) (c : Assigned) (p : ℕ)
        → IsHome home → IsHomeAtRest home
        → HasPublished home e d c p → HasNoBest (advertised home) e.node.0 (common_link home e) d }
{}

/// In a home at rest every endpoint of a link has the prefix that is published there for a delegated prefix, so it is
/// inside that one. Where none is published, no endpoint has one, and each does not want it or has nothing free in it.
pub fn link_follows_its_publisher()
    ensures every { (home : Home) (e f : Endpoint) (d : PlainPrefix) (c : Assigned) (p : ℕ)
        → IsHome home → IsHomeAtRest home
        → HasPublished home e d c p → Contains home.endpoints f → f.link ≡ e.link
        → (k : Assigned) × EndpointHasAssignment home f d k × (k.prefix ≡ c.prefix) }
    ensures inside { (home : Home) (e : Endpoint) (d : PlainPrefix) (c : Assigned)
        → IsHome home → IsHomeAtRest home
        → EndpointHasAssignment home e d c → IsWithin c.prefix d }
    ensures none { (home : Home) (f : Endpoint) (d : PlainPrefix)
        → IsHome home → IsHomeAtRest home
        → Contains home.endpoints f → Contains home.used d → HasNoPublisher home f.link d
        → ((k : Assigned) → ¬ EndpointHasAssignment home f d k)
        × (¬ IsTrue (home.wants f.node d) ⊎ HasNoFree (advertised home) d (home.length f)) }
{}

/// In a home at rest two published assignments on different links do not overlap.
pub fn links_do_not_overlap()
    ensures { (home : Home) (e f : Endpoint) (d other : PlainPrefix) (c k : Assigned) (p q : ℕ)
        → IsHome home → IsHomeAtRest home
        → HasPublished home e d c p → HasPublished home f other k q → e.link ≢ f.link
        → ¬ Overlaps c.prefix k.prefix }
{}

/// A home at rest is sound.
pub fn home_at_rest_is_sound()
    ensures { HomeAtRestIsSound }
{}
