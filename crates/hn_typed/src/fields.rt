//! The fields of a value, each in network byte order (RFC 7787, section 7): each is read from the front of bytes, and
//! answered with what follows it.
//!
//! # Errors
//!
//! `FIELDS_CUT`: bytes are missing.

ghost use Rattle.std.specs.Prelude.{◌≡◌, ◌+◌, ◌^◌, ◌<◌, ◌++◌, ◌∷◌, [], ℕ, length, IfOk, IfErr};
ghost use Rattle.std.specs.Int.{w128, to_be_bytes};
ghost use Rattle.hn_typed.specs.Fields.{word, two_in_byte, IsHash};
ghost use Rattle.hn_typed.specs.Shape.{Word, Ipv6, Hash, Halves, LowerHalf, Reserved};
ghost use Rattle.hn_typed.specs.Reading.{IsFirstIn, IsPastField};

use crate::fault::FIELDS_CUT;

/// A number of 4 bytes.
#[inline(always)]
pub(crate) fn word(bytes: &[u8]) -> Result<(u32, &[u8]), u8>
    ensures fault { IfErr result (IsFirstIn (Word 0) bytes.now) }
    ensures fits { IfOk result (λ found. found.0 < 2 ^ 32) }
    ensures parts { IfOk result (λ found. bytes.now ≡ word found.0 ++ found.1.now) }
    ensures past { IfOk result (λ found. IsPastField (Word 0) bytes.now found.1.now) }
{
    if bytes.len() < 4 {
        return Err(FIELDS_CUT);
    }
    let (front, after) = bytes.split_at(4);
    let number = u32::from_be_bytes([front[0], front[1], front[2], front[3]]);
    Ok((number, after))
}

/// A hash of 8 bytes.
#[inline(always)]
pub(crate) fn hash(bytes: &[u8]) -> Result<(&[u8; 8], &[u8]), u8>
    ensures fault { IfErr result (IsFirstIn (Hash []) bytes.now) }
    ensures hash { IfOk result (λ found. IsHash found.0.now) }
    ensures parts { IfOk result (λ found. bytes.now ≡ found.0.now ++ found.1.now) }
    ensures past { IfOk result (λ found. IsPastField (Hash []) bytes.now found.1.now) }
{
    let Some((hash, after)) = bytes.split_first_chunk::<8>() else {
        return Err(FIELDS_CUT);
    };
    Ok((hash, after))
}

/// An address of 16 bytes.
pub(crate) fn ipv6(bytes: &[u8]) -> Result<(u128, &[u8]), u8>
    ensures fault { IfErr result (IsFirstIn (Ipv6 0) bytes.now) }
    ensures fits { IfOk result (λ found. found.0 < 2 ^ 128) }
    ensures parts { IfOk result (λ found. bytes.now ≡ to_be_bytes w128 found.0 ++ found.1.now) }
    ensures past { IfOk result (λ found. IsPastField (Ipv6 0) bytes.now found.1.now) }
{
    let Some((address, after)) = bytes.split_first_chunk::<16>() else {
        return Err(FIELDS_CUT);
    };
    Ok((u128::from_be_bytes(*address), after))
}

// The two numbers in a byte, of 4 bits each; the first is in the upper ones.
fn split_byte(byte: u8) -> (u8, u8)
    ensures upper { result.0 < 16 }
    ensures lower { result.1 < 16 }
    ensures parts { byte ≡ two_in_byte result.0 result.1 }
{
    (byte >> 4, byte & 0xF)
}

/// Two numbers in a byte, of 4 bits each; the first is in the upper ones.
pub(crate) fn halves(bytes: &[u8]) -> Result<(u8, u8, &[u8]), u8>
    ensures fault { IfErr result (IsFirstIn (Halves 0 0) bytes.now) }
    ensures fits { IfOk result (λ found. (found.0 < 16) × (found.1 < 16)) }
    ensures parts { IfOk result (λ found. bytes.now ≡ two_in_byte found.0 found.1 ∷ found.2.now) }
    ensures past { IfOk result (λ found. IsPastField (Halves 0 0) bytes.now found.2.now) }
{
    let Some((byte, after)) = bytes.split_first() else {
        return Err(FIELDS_CUT);
    };
    let (upper, lower) = split_byte(*byte);
    Ok((upper, lower, after))
}

/// A number in the lower 4 bits of a byte, of which the upper are reserved.
pub(crate) fn lower_half(bytes: &[u8]) -> Result<(u8, &[u8]), u8>
    ensures fault { IfErr result (IsFirstIn (LowerHalf 0) bytes.now) }
    ensures fits { IfOk result (λ found. found.0 < 16) }
    ensures parts { IfOk result (λ found. (reserved : ℕ) × (bytes.now ≡ two_in_byte reserved found.0 ∷ found.1.now)) }
    ensures past { IfOk result (λ found. IsPastField (LowerHalf 0) bytes.now found.1.now) }
{
    let Some((byte, after)) = bytes.split_first() else {
        return Err(FIELDS_CUT);
    };
    let (_reserved, lower) = split_byte(*byte);
    Ok((lower, after))
}

/// A reserved byte.
pub(crate) fn reserved(bytes: &[u8]) -> Result<&[u8], u8>
    ensures fault { IfErr result (IsFirstIn Reserved bytes.now) }
    ensures parts { IfOk result (λ after. (reserved : ℕ) × (bytes.now ≡ reserved ∷ after.now)) }
    ensures past { IfOk result (λ after. IsPastField Reserved bytes.now after.now) }
{
    let Some((_reserved, after)) = bytes.split_first() else {
        return Err(FIELDS_CUT);
    };
    Ok(after)
}

/// Two numbers below 16 in one byte, the first in its upper 4 bits.
pub(crate) fn join_halves(upper: u8, lower: u8) -> u8
    requires upper_fits { upper < 16 }
    requires lower_fits { lower < 16 }
    ensures { result ≡ two_in_byte upper lower }
{
    upper << 4 | lower
}
