//! The lines of TLVs, with those of the TLVs within them below.

ghost use Rattle.std.specs.Prelude.{◌≡◌, ◌+◌, ◌^◌, ◌<◌, ◌≤◌, length, drop, OnOk, string_bytes};
ghost use Rattle.hn_tlv.specs.Grammar.{tlv_size, HasTlvs, IsTlvAt};
ghost use Rattle.hn_tlv.specs.View.{plain};
ghost use Rattle.hn_decode.specs.Line.{deepest};
ghost use Rattle.hn_decode.specs.Nested.{ShowsList, Shows, GrowsByText};

use crate::line::push_line;
use hn_tlv::{HEADER_SIZE, Tlv, first_fault_is_unique, list_continues, next};
use std::alloc::AllocError;

// The TLV at a place in a list of TLVs, and the place after it.
pub(crate) fn tlv_at(bytes: &[u8], at: usize) -> (Tlv<'_>, usize)
    requires inside { at < length bytes.now }
    requires list { HasTlvs (drop at bytes.now) }
    ensures { IsTlvAt bytes.now at (plain result.0) result.1 }
{
    first_fault_is_unique();
    next(bytes, at).unwrap().unwrap()
}

/// Adds the text of a list of TLVs, of which the first lies at `place`, with so many levels below theirs.
#[cycle(nested)]
pub(crate) fn push_list(
    out: &mut String,
    bytes: &[u8],
    place: usize,
    below: u8,
) -> Result<(), AllocError>
    requires list { HasTlvs bytes.now }
    requires places_fit { place + length bytes.now < 2 ^ 64 }
    requires levels { below ≤ deepest }
    ensures { OnOk result (GrowsByText (ShowsList (Shows below) place bytes.now) (string_bytes out.old) (string_bytes out.new)) }
{
    list_continues();
    let mut at = 0;
    while at < bytes.len() {
        let (tlv, after) = tlv_at(bytes, at);
        push_tlv(out, &tlv, place + at, below)?;
        at = after;
    }
    Ok(())
}

/// Adds the text of the TLV at `place`, with so many levels below its own.
#[cycle(nested)]
pub(crate) fn push_tlv(
    out: &mut String,
    tlv: &Tlv<'_>,
    place: usize,
    below: u8,
) -> Result<(), AllocError>
    requires places_fit { place + tlv_size (length tlv.now.value.now) < 2 ^ 64 }
    requires levels { below ≤ deepest }
    ensures { OnOk result (GrowsByText (Shows below place (plain tlv.now)) (string_bytes out.old) (string_bytes out.new)) }
{
    let Some(inner) = push_line(out, tlv, place, below)? else {
        return Ok(());
    };
    let inner_place = place + HEADER_SIZE + (tlv.value.len() - inner.len());
    push_list(out, inner, inner_place, below - 1)
}
