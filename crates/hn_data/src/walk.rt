//! A walk over a list of TLVs (RFC 7787, section 7).

ghost use Rattle.std.specs.Prelude.{◌≡◌, length, IfNone, IfSome};
ghost use Rattle.hn_tlv.specs.Grammar.{HasTlvs, IsTlvAt};
ghost use Rattle.hn_tlv.specs.View.{plain};
ghost use Rattle.hn_data.specs.Walk.{IsTlvPlace};

use hn_tlv::{Tlv, fault_after_list, first_fault_is_unique, next};

/// The TLV at a place in a list of TLVs, and the place after it; `None` at the end.
pub(crate) fn tlv_at(bytes: &[u8], at: usize) -> Option<(Tlv<'_>, usize)>
    requires list { HasTlvs bytes.now }
    requires place { IsTlvPlace bytes.now at }
    ensures end { IfNone result (at ≡ length bytes.now) }
    ensures found { IfSome result (λ found. IsTlvAt bytes.now at (plain found.0) found.1) }
{
    fault_after_list();
    first_fault_is_unique();
    match next(bytes, at) {
        Ok(found) => found,
        Err(_) => unreachable!(),
    }
}
