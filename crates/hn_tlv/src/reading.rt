ghost use Rattle.std.specs.Prelude.{◌≡◌, ℕ, ◌+◌, ◌-◌, ◌^◌, ◌<◌, ◌≤◌, ◌↔◌, List, [], length, drop, ◌++◌, replicate, Ok, Err, None, IsOk, IsOkAnd, IsSomeAnd, IfOk, IfErr, IfSome, IfNone, MatchOption, MatchResult};
ghost use Rattle.hn_tlv.specs.Grammar.{PlainTlv, IsTlv, header, unpadded, IsTlvList, HasTlvs, IsTlvAt, IsFault, FirstFault};
ghost use Rattle.hn_tlv.specs.Padding.{IsPaddingFault};
ghost use Rattle.hn_tlv.specs.View.{plain};

use crate::fault::{HEADER_CUT, PADDING_CUT, PADDING_NOT_ZERO, TlvFault, VALUE_CUT};
use crate::writing::{HEADER_SIZE, size};

/// A TLV whose value is lent by the text that it was read from.
#[derive(Clone, Copy)]
pub struct Tlv<'a> {
    /// The type.
    pub kind: u16,
    /// The value, without the padding.
    pub value: &'a [u8],
}

// The type, the length and the bytes after them.
#[inline(always)]
fn split_header(bytes: &[u8]) -> Option<(u16, u16, &[u8])>
    ensures none { IfNone result (length bytes.now < 4) }
    ensures fit { IfSome result (λ found. (found.0 < 2 ^ 16) × (found.1 < 2 ^ 16)) }
    ensures parts { IfSome result (λ found. bytes.now ≡ header found.0 found.1 ++ found.2.now) }
{
    if bytes.len() < HEADER_SIZE {
        return None;
    }
    let (front, rest) = bytes.split_at(HEADER_SIZE);
    let kind = u16::from_be_bytes([front[0], front[1]]);
    let len = u16::from_be_bytes([front[2], front[3]]);
    Some((kind, len, rest))
}

// The first of `count` pad bytes that is missing or is not zero, with its place in `bytes`.
#[inline(always)]
fn padding_fault(bytes: &[u8], count: usize) -> Option<TlvFault>
    ensures none { IfNone result (bytes.now ≡ replicate count 0 ++ drop count bytes.now) }
    ensures found { IfSome result (λ fault. IsPaddingFault count bytes.now fault.place fault.why) }
{
    for place in 0..count {
        let why = match bytes.get(place) {
            Some(0) => continue,
            Some(_) => PADDING_NOT_ZERO,
            None => PADDING_CUT,
        };
        return Some(TlvFault { place, why });
    }
    None
}

// The TLV that begins the bytes, and what follows its value.
#[inline(always)]
fn split_value(bytes: &[u8]) -> Result<(Tlv<'_>, &[u8]), TlvFault>
    requires { 0 < length bytes.now }
    ensures valid { IfOk result (λ found. IsTlv (plain found.0)) }
    ensures parts { IfOk result (λ found. bytes.now ≡ unpadded (plain found.0) ++ found.1.now) }
    ensures fault { IfErr result (λ fault. IsFault bytes.now fault.place fault.why) }
{
    let Some((kind, len, rest)) = split_header(bytes) else {
        return Err(TlvFault {
            place: 0,
            why: HEADER_CUT,
        });
    };
    let len = usize::from(len);
    if rest.len() < len {
        return Err(TlvFault {
            place: 0,
            why: VALUE_CUT,
        });
    }
    let (value, rest) = rest.split_at(len);
    Ok((Tlv { kind, value }, rest))
}

// The TLV that begins the bytes, and the place after its padding.
#[inline(always)]
fn first(bytes: &[u8]) -> Result<Option<(Tlv<'_>, usize)>, TlvFault>
    ensures { MatchResult result
        (λ found. MatchOption found (bytes.now ≡ []) (λ f. IsTlvAt bytes.now 0 (plain f.0) f.1))
        (λ fault. IsFault bytes.now fault.place fault.why) }
{
    if bytes.is_empty() {
        return Ok(None);
    }
    let (tlv, rest) = split_value(bytes)?;
    let len = tlv.value.len();
    let after = size(len);
    match padding_fault(rest, after - HEADER_SIZE - len) {
        None => Ok(Some((tlv, after))),
        Some(fault) => Err(TlvFault {
            place: HEADER_SIZE + len + fault.place,
            why: fault.why,
        }),
    }
}

/// The TLV that begins at the place `at`, and the place after its padding; `None` at the end, which `at` does not pass.
/// Never allocates.
///
/// # Errors
///
/// Where no TLV begins at `at`, the first of these that is so: `HEADER_CUT`, one to three bytes are
/// left, at `at`; `VALUE_CUT`, the value passes the end, at `at`; and of the pad bytes from left to
/// right the first that is missing, `PADDING_CUT`, or is not zero, `PADDING_NOT_ZERO`, at the place
/// of that byte (RFC 7787, section 7).
#[inline(always)]
pub fn next(bytes: &[u8], at: usize) -> Result<Option<(Tlv<'_>, usize)>, TlvFault>
    requires { at ≤ length bytes.now }
    // What is read is what is there.
    ensures end { IfOk result (λ found. IfNone found (at ≡ length bytes.now)) }
    ensures found { IfOk result (λ found. IfSome found (λ f. IsTlvAt bytes.now at (plain f.0) f.1)) }
    ensures fault { IfErr result (λ fault.
        (at ≤ fault.place) × IsFault (drop at bytes.now) (fault.place - at) fault.why) }

    // What is there is read.
    ensures at_end { at ≡ length bytes.now → result ≡ Ok None }
    ensures at_tlv { (tlv : PlainTlv) (after : ℕ) → IsTlvAt bytes.now at tlv after
        → IsOkAnd result (λ found. IsSomeAnd found (λ f. (plain f.0 ≡ tlv) × (f.1 ≡ after))) }
    ensures at_fault { (offset why : ℕ) → IsFault (drop at bytes.now) offset why
        → result ≡ Err (record { place = at + offset; why = why }) }
{
    match first(&bytes[at..]) {
        Ok(None) => Ok(None),
        Ok(Some((tlv, size))) => Ok(Some((tlv, at + size))),
        Err(fault) => Err(TlvFault {
            place: at + fault.place,
            why: fault.why,
        }),
    }
}

/// How many TLVs the text is a list of (RFC 7787, section 7). Never allocates.
///
/// # Errors
///
/// The fault of the first place where a TLV has to begin and none does, as `next` gives it.
pub fn check(bytes: &[u8]) -> Result<usize, TlvFault>
    // It accepts the lists of TLVs and nothing else.
    ensures accepts { IsOk result ↔ HasTlvs bytes.now }

    // What is answered is so.
    ensures count { IfOk result (λ count.
        (tlvs : List PlainTlv) × IsTlvList tlvs bytes.now × (length tlvs ≡ count)) }
    ensures fault { IfErr result (λ fault. FirstFault bytes.now fault.place fault.why) }

    // What is so is answered.
    ensures at_list { (tlvs : List PlainTlv) → IsTlvList tlvs bytes.now → result ≡ Ok (length tlvs) }
    ensures at_fault { (place why : ℕ) → FirstFault bytes.now place why
        → result ≡ Err (record { place = place; why = why }) }
{
    let mut at = 0;
    let mut count = 0;
    while let Some((_, after)) = next(bytes, at)? {
        at = after;
        count += 1;
    }
    Ok(count)
}
