ghost use Rattle.std.specs.Prelude.{◌≡◌, IfOk, string_bytes};
ghost use Rattle.hn_forms.specs.Decode.{malformed_line};

use hn_tlv::TlvFault;
use std::alloc::{AllocError, Global};

/// The line of octets that are no list of TLVs.
///
/// # Errors
///
/// Out of memory, as `AllocError`.
pub fn malformed_line(alloc: Global, fault: TlvFault) -> Result<String, AllocError>
    ensures { IfOk result (λ text. string_bytes text ≡ malformed_line fault.place fault.why) }
{
    let place = fault.place;
    let why = fault.why;
    format!(in alloc; "malformed place={place} why={why}\n")
}
