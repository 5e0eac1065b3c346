ghost use Rattle.std.specs.Prelude.{◌≡◌, ◌++◌, ◌<◌, ◌^◌, ℕ, List, ◌↔◌, Err, IfOk, length, drop, string_bytes};
ghost use Rattle.hn_tlv.specs.Grammar.{HasTlvs, FirstFault};
ghost use Rattle.hn_tlv.specs.declared.list_fault.ListFault.TheVariants.{Malformed};
ghost use Rattle.hn_decode.specs.Nested.{tlvs_line, IsTextTo, IsDecodeText, GrowsByText};

use crate::laws::lines_make_the_text;
use crate::line::DEEPEST;
use crate::nested::{push_tlv, tlv_at};
use hn_base::NoMemory;
use hn_tlv::{ListFault, check, list_continues};
use std::alloc::Global;

/// The first line of the text of a datagram: `tlvs C` with the number of its TLVs, and LF.
///
/// # Errors
///
/// Out of memory.
pub fn first_line(alloc: Global, count: usize) -> Result<String, NoMemory>
    ensures { IfOk result (λ text. string_bytes text ≡ tlvs_line count) }
{
    let text = format!(in alloc; "tlvs {count}\n")?;
    Ok(text)
}

/// Adds the lines of the TLV at a place of a datagram, and answers the place after it: its line, and the lines of what
/// lies within it below, two spaces further in. A line is the place of the TLV in the datagram, its type, the length of
/// its value, the name of its item and the item's fields; each line ends with LF.
///
/// Sub-TLVs have lines down to level 7, where the level of the datagram's own TLVs is 0. So have the TLVs of a Node
/// State's node data, if these are a list of TLVs. If there are no such lines, `subs=` or `body=` at the end of the line
/// shows the bytes, if there are any.
///
/// # Errors
///
/// Out of memory. Nothing is said of the text that was lent then.
pub fn push_next(out: &mut String, bytes: &[u8], at: usize) -> Result<usize, NoMemory>
    requires inside { at < length bytes.now }
    requires list { HasTlvs (drop at bytes.now) }
    ensures later { IfOk result (λ after. at < after) }
    ensures lines { IfOk result (λ after. GrowsByText (λ more.
        (lines : List ℕ) → IsTextTo bytes.now at lines → IsTextTo bytes.now after (lines ++ more))
        (string_bytes out.old) (string_bytes out.new)) }
{
    list_continues();
    let (tlv, after) = tlv_at(bytes, at);
    push_tlv(out, &tlv, at, DEEPEST)?;
    Ok(after)
}

/// The text of a datagram, which is a list of TLVs (RFC 7787, section 7): its first line, and then the lines of each of
/// its TLVs, as `push_next` adds them.
///
/// # Errors
///
/// `Malformed` if and only if the datagram is no list of TLVs, with the first fault as `hn_tlv::check` gives it, which
/// never allocates; otherwise `NoMemory`.
pub fn decode(alloc: Global, bytes: &[u8]) -> Result<String, ListFault>
    ensures text { IfOk result (λ text. IsDecodeText bytes.now (string_bytes text)) }
    ensures malformed { (place why : ℕ)
        → (result ≡ Err (Malformed (record { place = place; why = why }))) ↔ FirstFault bytes.now place why }
{
    lines_make_the_text();
    let count = check(bytes)?;
    let mut out = first_line(alloc, count)?;
    let mut at = 0;
    while at < bytes.len() {
        at = push_next(&mut out, bytes, at)?;
    }
    Ok(out)
}
