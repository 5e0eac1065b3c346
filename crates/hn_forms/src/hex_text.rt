ghost use Rattle.std.specs.Prelude.{◌≡◌, false, IfOk, IfErr};
ghost use Rattle.hn_forms.specs.HexText.{is_blank, unblanked, IsHexText, IsNoHexText, is_out_of_memory};

use hex::FromHexError;
use std::alloc::Global;

/// Whether the byte is skipped.
fn is_blank(byte: u8) -> bool
    ensures { result ≡ is_blank byte }
{
    byte == b' ' || byte == b'\n'
}

/// Takes spaces and LF out of a text, in place. Never allocates.
fn unblank(text: &mut Vec<u8>)
    ensures { text.new.items ≡ unblanked text.old.items }
{
    text.retain(|byte| !is_blank(*byte));
}

/// The octets that hexadecimal digits of either case write. Spaces and LF are skipped anywhere.
///
/// # Errors
///
/// Another byte, or an odd number of digits; else out of memory.
pub fn octets_of(alloc: Global, mut text: Vec<u8>) -> Result<Vec<u8>, FromHexError>
    ensures octets { IfOk result (λ octets. IsHexText text.items octets.items) }
    ensures refused { IfErr result (λ why. is_out_of_memory why ≡ false → IsNoHexText text.items) }
{
    unblank(&mut text);
    hex::decode(alloc, text.as_slice())
}

/// Whether memory ended before a text was decoded.
pub fn is_out_of_memory(why: &FromHexError) -> bool
    ensures { result ≡ is_out_of_memory why.now }
{
    matches!(why, FromHexError::OutOfMemory)
}
