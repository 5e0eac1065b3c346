ghost use Rattle.std.specs.Prelude.{◌≡◌, ◌↔◌, ◌⊎◌, ℕ, ◌+◌, ◌-◌, ◌*◌, ◌/◌, ◌%◌, ◌^◌, ◌<◌, ◌≤◌, Some, codes, IsTrue, IsOk, IfOk};
ghost use Rattle.std.specs.Cmp.{IsTotalOrder};
ghost use Rattle.hn_prefix.specs.Free.{sub_prefix, sub_prefix_count, IsPrefixInside, IsSubPrefix};
ghost use Rattle.hn_base.specs.Prefix.{PlainPrefix, IsPrefix, IsInside, IsWithin, Overlaps, prefix_containing, last_address, prefix_cmp};

use std::cmp::Ordering;
use std::error::Error;
use std::fmt;
use std::marker::Model;

/// The longest prefix, in bits.
pub const LONGEST_PREFIX: u8 = 128;

/// An IPv6 prefix: an address and how many of its leftmost bits are the prefix, with no bit set past them
/// (RFC 4291, section 2.3). Prefixes are ordered by their bits, and of equal bits the shorter comes first.
///
/// There is no `is_empty` beside `len`: the length counts bits, and `::/0` has every address inside.
#[derive(Clone, Copy, PartialEq, Eq)]
pub struct Prefix {
    bits: u128,
    len: u8,
}

impl Model for Prefix {
    ghost Value = { PlainPrefix };

    ghost view = { λ p. record { bits = p.bits; len = p.len } };

    ghost invariant = { λ p. IsPrefix (record { bits = p.bits; len = p.len }) };

    ghost inverse = { λ p. record { bits = p.bits; len = p.len } };
}

/// By the bits, and of equal bits the shorter first.
impl Ord for Prefix {
    ghost use Rattle.std.proofs.Common.{rules};
    ghost use Rattle.std.specs.Cmp.Rules.{comparing};
    ghost use Rattle.hn_base.specs.Prefix.{prefix_cmp};

    ghost cmp = { prefix_cmp };

    ghost total = { Prim.search (comparing, rules) };

    ghost matches_partial_cmp = { Prim.search (comparing, rules) };

    ghost matches_eq = { Prim.search (comparing, rules) };

    fn cmp(&self, other: &Prefix) -> Ordering {
        self.bits.cmp(&other.bits).then(self.len.cmp(&other.len))
    }
}

impl PartialOrd for Prefix {
    ghost use Rattle.std.proofs.Common.{rules};
    ghost use Rattle.std.specs.Cmp.{partial_order_from_own_ties};
    ghost use Rattle.std.specs.Cmp.Rules.{comparing};
    ghost use Rattle.std.specs.Ordering.{as_partial_cmp};
    ghost use Rattle.hn_base.specs.Prefix.{prefix_cmp};

    ghost partial_cmp = { as_partial_cmp prefix_cmp };

    ghost laws = { partial_order_from_own_ties (Prim.search (comparing, rules)) (Prim.search (comparing, rules)) };

    fn partial_cmp(&self, other: &Prefix) -> Option<Ordering> {
        Some(self.cmp(other))
    }
}

/// The length is above 128, or a bit past it is set.
#[derive(Clone, Copy, Debug, PartialEq, Eq)]
pub struct BadPrefix;

impl fmt::Display for BadPrefix {
    ghost output = { λ _. Some (codes "not an IPv6 prefix") };

    fn fmt<W: fmt::Write>(&self, f: &mut fmt::Formatter<W>) -> fmt::Result {
        f.write_str("not an IPv6 prefix")
    }
}

impl Error for BadPrefix {}

impl Prefix {
    /// The prefix of these leftmost bits and this length. Refused if and only if the length is above 128 or
    /// a bit past it is set. Never allocates.
    pub fn new(bits: u128, len: u8) -> Result<Prefix, BadPrefix>
        ensures accepted { IsOk result ↔ IsPrefix (record { bits = bits; len = len }) }
        ensures value { IfOk result (λ p. p ≡ record { bits = bits; len = len }) }
    {
        if len <= LONGEST_PREFIX && ends_in_zeros(bits, len) {
            Ok(Prefix { bits, len })
        } else {
            Err(BadPrefix)
        }
    }

    /// The prefix of this length that has the address inside: the bits of the address past the length are set to
    /// zero. Never allocates.
    #[tactic(auto, using(crate::proofs::Masks::cleared))]
    pub fn containing(address: u128, len: u8) -> Prefix
        requires { len ≤ 128 }
        ensures value { result ≡ prefix_containing address len }
        ensures valid { IsPrefix result }
        ensures inside { IsInside address result }
    {
        Prefix {
            bits: address - (address & host_mask(len)),
            len,
        }
    }

    /// The lowest address inside, whose bits past the length are zero. Never allocates.
    pub fn bits(&self) -> u128
        ensures value { result ≡ self.now.bits }
        ensures valid { IsPrefix self.now }
    {
        self.bits
    }

    /// How many bits the prefix has, 0 to 128. Never allocates.
    pub fn len(&self) -> u8
        ensures value { result ≡ self.now.len }
        ensures valid { IsPrefix self.now }
    {
        self.len
    }

    /// Whether each address inside the other prefix is inside this one. A prefix contains itself. Never allocates.
    pub fn contains(&self, other: &Prefix) -> bool
        ensures { IsTrue result ↔ IsWithin other.now self.now }
    {
        self.bits <= other.bits && other.last_address() <= self.last_address()
    }

    /// Whether some address is inside both. Never allocates.
    pub fn overlaps(&self, other: &Prefix) -> bool
        ensures { IsTrue result ↔ Overlaps self.now other.now }
    {
        self.bits <= other.last_address() && other.bits <= self.last_address()
    }

    /// The highest address inside, whose bits past the length are ones. Never allocates.
    pub fn last_address(&self) -> u128
        ensures value { result ≡ last_address self.now }
        ensures valid { IsPrefix self.now }
    {
        self.bits + host_mask(self.len)
    }

    /// How many prefixes of this length are inside.
    pub(crate) fn sub_prefix_count(&self, len: u8) -> u128
        requires not_shorter { self.now.len ≤ len }
        requires len_in_range { len ≤ 64 }
        ensures value { result ≡ sub_prefix_count self.now len }
        ensures small { result ≤ 2 ^ 64 }
        ensures valid { IsPrefix self.now }
    {
        1 << (len - self.len)
    }

    /// The prefix of this length at a place among those inside, which are numbered from 0 in ascending order.
    pub(crate) fn sub_prefix(&self, len: u8, place: u128) -> Prefix
        requires not_shorter { self.now.len ≤ len }
        requires len_in_range { len ≤ 128 }
        requires below_count { place < sub_prefix_count self.now len }
        ensures { result ≡ sub_prefix self.now len place }
    {
        Prefix {
            bits: self.bits + addresses_before(place, len),
            len,
        }
    }

    /// The place of the prefix of this length that has this address inside, counted as if they went on past this one.
    pub(crate) fn place_of(&self, address: u128, len: u8) -> u128
        requires not_below { self.now.bits ≤ address }
        requires len_in_range { len ≤ 128 }
        ensures { result ≡ (address - self.now.bits) / 2 ^ (128 - len) }
    {
        if len == 0 {
            0
        } else {
            (address - self.bits) >> (128 - len)
        }
    }
}

/// Ones in the bits past a length, and zeros in the others.
fn host_mask(len: u8) -> u128
    requires { len ≤ 128 }
    ensures { result + 1 ≡ 2 ^ (128 - len) }
{
    if len == 0 {
        u128::MAX
    } else {
        (1 << (128 - len)) - 1
    }
}

/// How many addresses the prefixes of this length before a place have.
fn addresses_before(place: u128, len: u8) -> u128
    requires len_in_range { len ≤ 128 }
    requires fits { place * 2 ^ (128 - len) < 2 ^ 128 }
    ensures { result ≡ place * 2 ^ (128 - len) }
{
    if len == 0 { 0 } else { place << (128 - len) }
}

/// Whether no bit past the length is set.
#[tactic(auto, using(crate::proofs::Masks::and_host_mask))]
fn ends_in_zeros(bits: u128, len: u8) -> bool
    requires { len ≤ 128 }
    ensures { IsTrue result ↔ (bits % 2 ^ (128 - len) ≡ 0) }
{
    bits & host_mask(len) == 0
}

/// Two prefixes overlap if and only if one is within the other: they never share a part only.
pub fn overlap_is_nesting()
    ensures { (p q : PlainPrefix) → Overlaps p q ↔ (IsWithin p q ⊎ IsWithin q p) }
{}

/// A prefix within another is at least as long.
pub fn within_is_not_shorter()
    ensures { (p q : PlainPrefix) → IsPrefix p → IsPrefix q → IsWithin p q → q.len ≤ p.len }
{}

/// The addresses inside are those from the lowest to the highest one, whose bits past the length are all ones.
pub fn inside_is_range(p: &Prefix)
    ensures { (address : ℕ) → IsInside address p.now ↔ (p.now.bits ≤ address) × (address ≤ last_address p.now) }
{
    let _ = &p.bits;
}

/// A prefix is within another, or overlaps it, where its addresses are or do, from the lowest to the highest.
pub fn prefixes_are_ranges()
    ensures within { (p q : PlainPrefix) → IsPrefix p → IsPrefix q
        → IsWithin q p ↔ (p.bits ≤ q.bits) × (last_address q ≤ last_address p) }
    ensures overlap { (p q : PlainPrefix) → IsPrefix p → IsPrefix q
        → Overlaps p q ↔ (p.bits ≤ last_address q) × (q.bits ≤ last_address p) }
{}

/// The prefixes of a length inside another are its sub-prefixes, one at each place below their number.
pub fn sub_prefixes_are_all(outer: &Prefix, len: u8)
    requires not_shorter { outer.now.len ≤ len }
    requires len_in_range { len ≤ 128 }
    ensures { (p : PlainPrefix) → IsPrefixInside outer.now len p ↔ IsSubPrefix outer.now len p }
{
    let _ = &outer.bits;
}

/// The order of prefixes, `prefix_cmp`, is total.
pub fn order_is_total()
    ensures { IsTotalOrder prefix_cmp }
{}
