//! The words of a line after its first.

ghost use Rattle.std.specs.Prelude.{◌≡◌, ◌≢◌, ◌<◌, ℕ, List, length, Ok, MatchBool, IfOk, IfErr, IfSome, IfNone};
ghost use Rattle.std.specs.Char.{is_ascii_hexdigit};
ghost use Rattle.std.specs.List.{list_all};
ghost use Rattle.hex.specs.Hex.{decode_of};
ghost use Rattle.hn_script.specs.Field.{Named, Node, Endpoint, Number, Prefixed, Capability, Way, Length, IsHexWord, IsNumberText};
ghost use Rattle.hn_script.specs.Line.{priority as priority_field};
ghost use Rattle.hn_script.specs.Reading.{ReadsField};

use crate::code::MALFORMED;
use crate::draft::decoded;
use crate::line::How;
use hn_base::{Bytes, EpId, Letter, LinkLength, Name, NoMemory, NodeId};
use hn_prefix::Prefix;
use std::alloc::Global;

/// The most digits of a number.
const MOST_DIGITS: usize = 20;

/// The name that this word is.
pub(crate) fn name(word: &[u8]) -> Result<Name, u8>
    ensures { ReadsField Named word.now result }
{
    Name::new(word).ok_or(MALFORMED)
}

/// The identifier that this word writes.
pub(crate) fn node(word: &[u8]) -> Result<NodeId, u8>
    ensures { ReadsField Node word.now result }
{
    NodeId::parse(word).ok_or(MALFORMED)
}

/// The number that a word writes in decimal; `None` if and only if it writes none in this range. Never allocates.
pub fn number_in(word: &[u8], lowest: u64, highest: u64) -> Option<u64>
    ensures found { IfSome result (IsNumberText lowest highest word.now) }
    ensures none { IfNone result ((n : ℕ) → IsNumberText lowest highest word.now n → ⊥) }
{
    let value = hn_base::number(word, 10, MOST_DIGITS)?;
    if value < u128::from(lowest) || value > u128::from(highest) {
        return None;
    }
    Some(value as u64)
}

/// The number that this word writes, in this range.
pub(crate) fn number(word: &[u8], lowest: u64, highest: u64) -> Result<u64, u8>
    ensures { ReadsField (Number lowest highest) word.now result }
{
    number_in(word, lowest, highest).ok_or(MALFORMED)
}

/// The endpoint that this word writes.
pub(crate) fn endpoint(word: &[u8]) -> Result<EpId, u8>
    ensures { ReadsField Endpoint word.now result }
{
    let value = number(word, 1, 0xffff_ffff)?;
    Ok(EpId(value as u32))
}

/// The priority that this word writes.
pub(crate) fn priority(word: &[u8]) -> Result<u8, u8>
    ensures { ReadsField priority_field word.now result }
{
    let value = number(word, 0, 7)?;
    Ok(value as u8)
}

/// The lifetime in seconds that this word writes, at most this one.
pub(crate) fn lifetime(word: &[u8], highest: u32) -> Result<u32, u8>
    ensures { ReadsField (Number 0 highest) word.now result }
{
    let value = number(word, 0, u64::from(highest))?;
    Ok(value as u32)
}

/// The prefix that this word writes.
pub(crate) fn prefix(word: &[u8]) -> Result<Prefix, u8>
    ensures { ReadsField Prefixed word.now result }
{
    Prefix::parse(word).map_err(|_| MALFORMED)
}

/// The length of the prefixes of a private link that this word writes; none is `off`.
pub(crate) fn length(word: &[u8]) -> Result<Option<LinkLength>, u8>
    ensures { ReadsField Length word.now result }
{
    if word == b"off".as_slice() {
        return Ok(None);
    }
    let bits = number(word, 1, 64)?;
    Ok(Some(LinkLength::new(bits as u8)))
}

/// The capability that this word names.
pub(crate) fn letter(word: &[u8]) -> Result<Letter, u8>
    ensures { ReadsField Capability word.now result }
{
    match word {
        b"M" => Ok(Letter::M),
        b"P" => Ok(Letter::P),
        b"H" => Ok(Letter::H),
        b"L" => Ok(Letter::L),
        _ => Err(MALFORMED),
    }
}

/// The way that this word names.
pub(crate) fn way(word: &[u8]) -> Result<How, u8>
    ensures { ReadsField Way word.now result }
{
    match word {
        b"uni" => Ok(How::Uni),
        b"multi" => Ok(How::Multi),
        b"far" => Ok(How::Far),
        _ => Err(MALFORMED),
    }
}

/// Whether all bytes of this word are hexadecimal digits.
fn has_hex_digits(word: &[u8]) -> bool
    ensures { result ≡ list_all is_ascii_hexdigit word.now }
{
    word.iter().all(|byte| byte.is_ascii_hexdigit())
}

/// Whether this word is hexadecimal digits, two for each byte.
fn is_hex(word: &[u8]) -> bool
    ensures { MatchBool result ((bytes : List ℕ) × (decode_of word.now ≡ Ok bytes))
        ((bytes : List ℕ) → decode_of word.now ≢ Ok bytes) }
{
    if word.len() % 2 != 0 {
        return false;
    }
    has_hex_digits(word)
}

/// The word as it is, if it writes bytes in hexadecimal.
pub(crate) fn digits(word: &[u8]) -> Result<&[u8], u8>
    requires { 0 < length word.now }
    ensures found { IfOk result (λ digits. (digits.now ≡ word.now) × (bytes : List ℕ) × IsHexWord bytes word.now) }
    ensures refused { IfErr result (λ code. (code ≡ MALFORMED) × ((bytes : List ℕ) → ¬ IsHexWord bytes word.now)) }
{
    if word == b"-".as_slice() {
        return Ok(word);
    }
    if is_hex(word) {
        return Ok(word);
    }
    Err(MALFORMED)
}

/// The bytes that a word writes in hexadecimal; `None` if and only if it writes none.
///
/// # Errors
///
/// Out of memory.
pub fn hex_word(alloc: Global, word: &[u8]) -> Result<Option<Bytes>, NoMemory>
    ensures found { IfOk result (λ bytes. IfSome bytes (λ bytes. IsHexWord bytes word.now)) }
    ensures none { IfOk result (λ bytes. IfNone bytes ((found : List ℕ) → ¬ IsHexWord found word.now)) }
{
    if word.is_empty() {
        return Ok(None);
    }
    match digits(word) {
        Ok(digits) => Ok(Some(decoded(alloc, digits)?)),
        Err(_) => Ok(None),
    }
}
