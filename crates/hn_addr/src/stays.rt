//! The own address that stays.

ghost use Rattle.std.specs.Prelude.{◌≡◌, ◌↔◌, ◌⊎◌, ◌≤◌, ℕ, IsTrue, MatchOption};
ghost use Rattle.hn_base.specs.Prefix.{IsInside};
ghost use Rattle.hn_rules.specs.Seen.{seen_by};
ghost use Rattle.hn_addr.specs.Addresses.{HasCome, Stays};
ghost use Rattle.hn_addr.specs.Others.{AreOthers};
ghost use Rattle.hn_addr.specs.Own.{IsOwnInside, IsLesser, IsLeastFound};

use crate::others::Others;
use hn_assign::Assigned;
use hn_base::EpId;
use hn_prefix::{Prefix, inside_is_range};
use hn_router::Router;

/// Whether an address is inside a prefix.
fn is_inside(prefix: &Prefix, address: u128) -> bool
    ensures { IsTrue result ↔ IsInside address prefix.now }
{
    inside_is_range(prefix);
    prefix.bits() <= address && address <= prefix.last_address()
}

/// Whether an own address is of the endpoint of an assignment, and inside its prefix.
fn is_own_inside(a: &(EpId, u128), c: &Assigned) -> bool
    ensures { IsTrue result ↔ IsOwnInside c.now a.now }
{
    a.0 == c.endpoint && is_inside(&c.prefix, a.1)
}

/// The lesser of two addresses, if there are two.
fn lesser(so_far: Option<u128>, address: u128) -> u128
    ensures { MatchOption so_far (result ≡ address) (λ before. IsLesser before address result) }
{
    match so_far {
        Some(before) if before < address => before,
        _ => address,
    }
}

/// The least own address of the endpoint of an assignment that is inside its prefix, if there is one.
fn least_own(own: &[(EpId, u128)], c: &Assigned) -> Option<u128>
    ensures { IsLeastFound own.now c.now result }
{
    let mut least = None;
    for a in own {
        if is_own_inside(a, c) {
            least = Some(lesser(least, a.1));
        }
    }
    least
}

/// Whether an address came already.
pub(crate) fn has_come(list: &[(EpId, u128)], address: u128) -> bool
    ensures { IsTrue result ↔ HasCome list.now address }
{
    list.iter().any(|a| a.1 == address)
}

/// The own address that stays in an assignment, if one does: the least of its endpoint inside its prefix, where no node
/// with a greater identifier has it, and it did not come already.
pub(crate) fn stays(
    router: &Router,
    others: &Others,
    list: &[(EpId, u128)],
    c: &Assigned,
) -> Option<u128>
    requires { AreOthers (seen_by router.now) others.now }
    ensures { MatchOption result ((x : ℕ) → ¬ Stays (seen_by router.now) router.now.addresses c.now list.now x)
        (Stays (seen_by router.now) router.now.addresses c.now list.now) }
{
    let least = least_own(router.addresses(), c)?;
    if others.is_above(router.id(), least) || has_come(list, least) {
        return None;
    }
    Some(least)
}
