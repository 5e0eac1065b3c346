ghost use Rattle.std.specs.Prelude.{◌≡◌, ◌≢◌, ◌↔◌, IsTrue, MatchOption, if◌then◌else◌};
ghost use Rattle.std.specs.Ordering.{is_lt};
ghost use Rattle.hn_base.specs.Key.{IsAbove};
ghost use Rattle.hn_base.specs.Prefix.{IsWithin, Overlaps};
ghost use Rattle.hn_assign.specs.Advertised.{IsAdvertisedOnLink, advertised_cmp};
ghost use Rattle.hn_assign.specs.Best.{IsBestIfAny, IsValid};

use crate::advertised::Advertised;
use hn_base::{EpId, Key, NodeId};
use hn_pair::Assigned;
use hn_prefix::Prefix;

/// The priority of assignments that a router makes and advertises (RFC 7788, section 6.3).
pub const PRIORITY: u8 = 2;

/// The best prefix inside a delegated prefix for the link of some endpoints: among those that other nodes than `own`
/// advertise on the link, the one with the greatest key, and of these the greatest (RFC 7695, section 4.1). `None` if
/// and only if there is none. Never allocates.
pub fn best(
    advertised: &[Advertised],
    own: NodeId,
    common: &[(NodeId, EpId)],
    delegated: &Prefix,
) -> Option<Advertised>
    ensures { IsBestIfAny advertised.now own.0 common.now delegated.now result }
{
    let mut best = None;
    for a in advertised {
        if is_eligible(a, own, common, delegated) {
            best = Some(greater_of(best, a));
        }
    }
    best
}

/// The greater of two, where there are two.
fn greater_of(best: Option<Advertised>, a: &Advertised) -> Advertised
    ensures { MatchOption best (result ≡ a.now)
        (λ b. result ≡ (if is_lt (advertised_cmp a.now b) then b else a.now)) }
{
    match best {
        Some(best) if *a < best => best,
        _ => *a,
    }
}

/// Whether another node than `own` advertises the prefix on the link, inside the delegated prefix.
fn is_eligible(a: &Advertised, own: NodeId, common: &[(NodeId, EpId)], delegated: &Prefix) -> bool
    ensures { IsTrue result
        ↔ (a.now.key.node.0 ≢ own.0) × IsAdvertisedOnLink common.now a.now × IsWithin a.now.prefix delegated.now }
{
    a.key.node != own && is_on_link(a, common) && delegated.contains(&a.prefix)
}

/// Whether it is advertised on the link.
fn is_on_link(a: &Advertised, common: &[(NodeId, EpId)]) -> bool
    ensures { IsTrue result ↔ IsAdvertisedOnLink common.now a.now }
{
    common
        .iter()
        .any(|e| e.0 == a.key.node && e.1 == a.key.endpoint)
}

/// Whether an assignment to the link of some endpoints is valid: no prefix that overlaps it is advertised on another
/// link with a key above the one that the assignment has where `own` advertises it (RFC 7695, section 4.1). Never
/// allocates.
pub fn valid(
    advertised: &[Advertised],
    own: NodeId,
    common: &[(NodeId, EpId)],
    c: &Assigned,
) -> bool
    ensures { IsTrue result ↔ IsValid advertised.now own.0 common.now c.now }
{
    let key = Key {
        priority: PRIORITY,
        node: own,
        endpoint: c.endpoint,
    };
    for a in advertised {
        if overrides(a, common, &key, &c.prefix) {
            return false;
        }
    }
    true
}

/// Whether a prefix of another link keeps one with this key from its own link.
fn overrides(a: &Advertised, common: &[(NodeId, EpId)], key: &Key, prefix: &Prefix) -> bool
    ensures { IsTrue result
        ↔ ¬ (IsAdvertisedOnLink common.now a.now) × Overlaps a.now.prefix prefix.now × IsAbove a.now.key key.now }
{
    a.key.is_above(key) && a.prefix.overlaps(prefix) && !is_on_link(a, common)
}
