//! Sub-TLVs after the fixed part of a value (RFC 7787, section 7).

ghost use Rattle.std.specs.Prelude.{◌≡◌, ◌↔◌, All, IsTrue, IfOk, IfErr, [], List, ℕ};
ghost use Rattle.hn_typed.specs.Fields.{ThenSubs};
ghost use Rattle.hn_typed.specs.Shape.{Subs};
ghost use Rattle.hn_typed.specs.Fault.{IsFirstCause};

use crate::fault::NO_SUBS;
use hn_tlv::{check, padding};

// Whether there are only zeros.
fn are_zeros(bytes: &[u8]) -> bool
    ensures { IsTrue result ↔ All (λ byte. byte ≡ 0) bytes.now }
{
    bytes.iter().all(|byte| *byte == 0)
}

/// The sub-TLVs after a fixed part of that length: none if nothing follows it, and else what follows the zeros.
///
/// # Errors
///
/// `NO_SUBS`: there are no such zeros, or what follows them is no list of TLVs.
#[inline(always)]
pub(crate) fn subs_after(len: usize, after: &[u8]) -> Result<&[u8], u8>
    ensures found { IfOk result (λ subs. ThenSubs len after.now subs.now) }
    ensures fault { IfErr result (λ why. (subs : List ℕ) → IsFirstCause [] (Subs subs) len after.now why) }
{
    if after.is_empty() {
        return Ok(after);
    }
    let zeros = padding(len);
    if after.len() < zeros {
        return Err(NO_SUBS);
    }
    let (pad, subs) = after.split_at(zeros);
    if are_zeros(pad) && check(subs).is_ok() {
        Ok(subs)
    } else {
        Err(NO_SUBS)
    }
}
