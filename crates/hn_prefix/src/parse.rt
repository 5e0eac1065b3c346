//! IPv6 addresses and prefixes from text.

ghost use Rattle.std.specs.Prelude.{◌≡◌, ℕ, ◌+◌, ◌^◌, ◌<◌, ◌≤◌, List, ◌++◌, length, codes, Some, IfSome, IfOk};
ghost use Rattle.hn_prefix.specs.AddressText.{IsGroups, IsGroupsText, IsAddressText, address_text_of};
ghost use Rattle.hn_prefix.specs.Reading.{AddsGroups};

use crate::gap::split_at_gap;
use crate::groups::{Groups, address};
use crate::prefix::Prefix;
use hn_base::{number, split_once};
use std::error::Error;
use std::fmt;

/// The text is no read form of an address, or of a prefix.
#[derive(Clone, Copy, Debug, PartialEq, Eq)]
pub struct BadText;

impl fmt::Display for BadText {
    ghost output = { λ _. Some (codes "not an IPv6 address or prefix") };

    fn fmt<W: fmt::Write>(&self, f: &mut fmt::Formatter<W>) -> fmt::Result {
        f.write_str("not an IPv6 address or prefix")
    }
}

impl Error for BadText {}

/// The address that a text decodes to: eight groups of one to four hexadecimal digits with colons between them, or
/// fewer with one `::`, which represents one zero group or more (RFC 4291, section 2.2, forms 1 and 2). Neither a
/// dotted form nor a zone is read. Never allocates.
///
/// # Errors
///
/// `BadText` if and only if the text is of no address.
pub fn parse_address(text: &[u8]) -> Result<u128, BadText>
    // What is read is a text of the address,
    ensures found { IfOk result (IsAddressText text.now) }
    // and each text of an address is read as that address.
    ensures every { (ip : ℕ) → IsAddressText text.now ip → result ≡ Ok ip }
    // So what `address_text` writes is read again.
    ensures written { (ip : ℕ) → ip < 2 ^ 128 → text.now ≡ address_text_of ip → result ≡ Ok ip }
{
    let groups = all_groups(text).ok_or(BadText)?;
    Ok(address(groups.as_slice()))
}

impl Prefix {
    ghost use Rattle.hn_base.specs.Prefix.{PlainPrefix, IsPrefix};
    ghost use Rattle.hn_prefix.specs.PrefixText.{prefix_text_of, IsPrefixText};

    /// The prefix that a text decodes to: an address as `parse_address` reads it, `/`, and the length in one to three
    /// decimal digits (RFC 4291, section 2.3). A length above 128 and a bit set past the length are refused.
    /// Never allocates.
    ///
    /// # Errors
    ///
    /// `BadText` if and only if the text is of no prefix.
    pub fn parse(text: &[u8]) -> Result<Prefix, BadText>
        // What is read is a text of the prefix,
        ensures found { IfOk result (IsPrefixText text.now) }
        // and each text of a prefix is read as that prefix.
        ensures every { (p : PlainPrefix) → IsPrefixText text.now p → result ≡ Ok p }
        // So what `text` writes is read again.
        ensures written { (p : PlainPrefix) → IsPrefix p → text.now ≡ prefix_text_of p → result ≡ Ok p }
    {
        let Some((address, length)) = split_once(text, b'/') else {
            return Err(BadText);
        };
        let bits = parse_address(address)?;
        let Some(len) = number(length, 10, 3) else {
            return Err(BadText);
        };
        if len > 128 {
            return Err(BadText);
        }
        Prefix::new(bits, len as u8).map_err(|_| BadText)
    }
}

/// The eight groups that a text decodes to.
fn all_groups(text: &[u8]) -> Option<Groups>
    ensures found { IfSome result (IsGroupsText text.now) }
    ensures eight { IfSome result (λ gs. length gs ≡ 8) }
    ensures every { (gs : List ℕ) → IsGroupsText text.now gs → result ≡ Some gs }
{
    let Some((left, right)) = split_at_gap(text) else {
        let groups = some_groups(text)?;
        return if groups.len() == 8 {
            Some(groups)
        } else {
            None
        };
    };
    let mut groups = some_groups(left)?;
    let right = some_groups(right)?;
    let count = groups.len() + right.len();
    if count >= 8 {
        return None;
    }
    groups.push_zeros(8 - count);
    groups.push_all(right.as_slice());
    Some(groups)
}

/// Up to eight groups with colons between them, or none in an empty text.
fn some_groups(text: &[u8]) -> Option<Groups>
    ensures found { IfSome result (IsGroups text.now) }
    ensures every { (gs : List ℕ) → IsGroups text.now gs → length gs ≤ 8 → result ≡ Some gs }
{
    if text.is_empty() {
        return Some(Groups::new());
    }
    read_groups(text, Groups::new())
}

/// Adds the groups of a text, one at least, to those before, up to eight in all.
fn read_groups(text: &[u8], mut groups: Groups) -> Option<Groups>
    ensures found { IfSome result (AddsGroups text.now groups) }
    ensures every { (gs : List ℕ) → IsGroups text.now gs → 0 < length gs → length groups + length gs ≤ 8
        → result ≡ Some (groups ++ gs) }
{
    if groups.len() >= 8 {
        return None;
    }
    let Some((digits, rest)) = split_once(text, b':') else {
        groups.push(number(text, 16, 4)? as u16);
        return Some(groups);
    };
    groups.push(number(digits, 16, 4)? as u16);
    read_groups(rest, groups)
}
