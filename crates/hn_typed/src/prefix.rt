//! The prefix field of a value: a length, and as many bytes as hold that many bits (RFC 7788, section 10).

ghost use Rattle.std.specs.Prelude.{◌≡◌, ◌-◌, ◌≤◌, ◌++◌, length, replicate, IfOk, IfErr};
ghost use Rattle.std.specs.Int.{w128, from_be_bytes};
ghost use Rattle.hn_base.specs.Prefix.{IsPrefix};
ghost use Rattle.hn_typed.specs.Fields.{prefix_field, bytes_for};
ghost use Rattle.hn_typed.specs.Shape.{Prefixed, any_prefix};
ghost use Rattle.hn_typed.specs.Reading.{IsFirstIn, IsPastField};

use crate::fault::{FIELDS_CUT, NO_PREFIX};
use hn_prefix::{LONGEST_PREFIX, Prefix};

/// How many bytes hold this many bits.
pub(crate) fn bytes_for(bits: u8) -> usize
    ensures { result ≡ bytes_for bits }
{
    usize::from(bits).div_ceil(8)
}

// These bytes, and zeros up to the 16 of an address.
fn filled_up(front: &[u8]) -> [u8; 16]
    requires { length front.now ≤ 16 }
    ensures { result ≡ front.now ++ replicate (16 - length front.now) 0 }
{
    let mut bytes = [0; 16];
    bytes[..front.len()].copy_from_slice(front);
    bytes
}

// The address that begins with these bytes, and is zero from there on.
fn address_of(front: &[u8]) -> u128
    requires { length front.now ≤ 16 }
    ensures { result ≡ from_be_bytes w128 front.now }
{
    u128::from_be_bytes(filled_up(front))
}

/// The prefix that begins the bytes, and what follows it. Refused by the first of these: the length is above 128,
/// `NO_PREFIX`; bytes are missing, `FIELDS_CUT`; a bit is set past the length, `NO_PREFIX`.
pub(crate) fn split_prefix(field: &[u8]) -> Result<(Prefix, &[u8]), u8>
    ensures valid { IfOk result (λ found. IsPrefix found.0) }
    ensures parts { IfOk result (λ found. field.now ≡ prefix_field found.0 ++ found.1.now) }
    ensures past { IfOk result (λ found. IsPastField (Prefixed any_prefix) field.now found.1.now) }
    ensures fault { IfErr result (IsFirstIn (Prefixed any_prefix) field.now) }
{
    let Some((&len, after)) = field.split_first() else {
        return Err(FIELDS_CUT);
    };
    if len > LONGEST_PREFIX {
        return Err(NO_PREFIX);
    }
    let count = bytes_for(len);
    if after.len() < count {
        return Err(FIELDS_CUT);
    }
    let (front, after) = after.split_at(count);
    match Prefix::new(address_of(front), len) {
        Ok(prefix) => Ok((prefix, after)),
        Err(_) => Err(NO_PREFIX),
    }
}
