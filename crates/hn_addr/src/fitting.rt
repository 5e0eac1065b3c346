//! The first number that fits.

ghost use Rattle.std.specs.Prelude.{◌≡◌, ◌↔◌, ◌+◌, ◌-◌, ◌^◌, ◌<◌, ◌≤◌, ℕ, IsTrue, MatchOption};
ghost use Rattle.std.specs.Ordering.{nat_cmp};
ghost use Rattle.std.specs.List.Sorted.{IsStrictlySortedBy};
ghost use Rattle.hn_addr.specs.Numbers.{IsFreeAddress, HasNoneFrom, IsFirstFrom};

use crate::others::Others;
use crate::stays::has_come;
use hn_base::EpId;
use hn_prefix::{LONGEST_PREFIX, Prefix};

/// How many bits a number has at most.
const NUMBER_BITS: u8 = 16;

/// How many numbers of at most 16 bits make an address inside a prefix, with 0.
fn count(prefix: &Prefix) -> u32
    ensures { (k : ℕ) → k < result ↔ (k ≤ 65535) × (k < 2 ^ (128 - prefix.now.len)) }
{
    1 << (LONGEST_PREFIX - prefix.len()).min(NUMBER_BITS)
}

/// The address that a number makes.
pub(crate) fn address_of(prefix: &Prefix, k: u32) -> u128
    requires { k < 2 ^ (128 - prefix.now.len) }
    ensures { result ≡ prefix.now.bits + k }
{
    prefix.bits() + u128::from(k)
}

/// Whether an address is no other node's, and did not come already (RFC 7788, section 6.4).
fn is_free(others: &Others, list: &[(EpId, u128)], address: u128) -> bool
    requires { IsStrictlySortedBy nat_cmp others.now.addresses.items }
    ensures { IsTrue result ↔ IsFreeAddress others.now list.now address }
{
    !others.have(address) && !has_come(list, address)
}

/// The first number from another on, up to 65,535, that makes a free address inside a prefix, if there is one.
pub(crate) fn first_from(
    others: &Others,
    list: &[(EpId, u128)],
    prefix: &Prefix,
    from: u32,
) -> Option<u32>
    requires low { 1 ≤ from }
    requires ascending { IsStrictlySortedBy nat_cmp others.now.addresses.items }
    ensures { MatchOption result (HasNoneFrom others.now list.now prefix.now from)
        (IsFirstFrom others.now list.now prefix.now from) }
{
    for k in from..count(prefix) {
        if is_free(others, list, address_of(prefix, k)) {
            return Some(k);
        }
    }
    None
}
