//! Laws of the text of a datagram: call one to know it.

ghost use Rattle.std.specs.Prelude.{◌≡◌, ◌++◌, [], ℕ, List, length};
ghost use Rattle.hn_tlv.specs.Grammar.{PlainTlv, IsTlvList, HasTlvs, FirstFault};
ghost use Rattle.hn_decode.specs.Laws.{DecodeTextExists, LinesGoOn};
ghost use Rattle.hn_decode.specs.Nested.{tlvs_line, IsTextTo, IsDecodeText};

use hn_tlv::{first_fault_is_unique, list_is_unique, list_or_first_fault};
use hn_typed::{item_fault_is_unique, item_is_unique, item_or_fault};

/// A datagram has at most one text, and none if it is no list of TLVs.
pub fn decode_text_is_unique()
    ensures one { (bytes text other : List ℕ) → IsDecodeText bytes text → IsDecodeText bytes other → text ≡ other }
    ensures none { (bytes text : List ℕ) (place why : ℕ) → FirstFault bytes place why → ¬ (IsDecodeText bytes text) }
{
    list_is_unique();
    first_fault_is_unique();
    item_is_unique();
    item_fault_is_unique();
}

/// A datagram that is a list of TLVs has a text.
pub fn decode_text_exists()
    ensures { DecodeTextExists }
{
    item_or_fault();
    list_or_first_fault();
    first_fault_is_unique();
}

/// The first line, and the lines of each TLV of the list in order, are the text of a datagram.
pub fn lines_make_the_text()
    ensures begins { (bytes : List ℕ) → HasTlvs bytes → IsTextTo bytes 0 [] }
    ensures whole { (bytes lines : List ℕ) (tlvs : List PlainTlv) → IsTlvList tlvs bytes
        → IsTextTo bytes (length bytes) lines → IsDecodeText bytes (tlvs_line (length tlvs) ++ lines) }
{
    list_is_unique();
}

/// The lines of a datagram before a place are followed by more, and with these they make its text.
pub fn lines_go_on()
    ensures { LinesGoOn }
{
    item_or_fault();
    list_or_first_fault();
    first_fault_is_unique();
    list_is_unique();
}
