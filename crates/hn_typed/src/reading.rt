ghost use Rattle.std.specs.Prelude.{◌≡◌, ℕ, Err, IsOkAnd, IfOk, IfErr};
ghost use Rattle.hn_tlv.specs.View.{plain};
ghost use Rattle.hn_typed.specs.Item.{PlainItem};
ghost use Rattle.hn_typed.specs.Table.{IsItem};
ghost use Rattle.hn_typed.specs.Fault.{IsItemFault};
ghost use Rattle.hn_typed.specs.View.{plain_item};

use crate::fault::ItemFault;
use crate::item::Item;
use crate::readers::read_value;
use hn_tlv::Tlv;

/// The item that a TLV decodes to (RFC 7787, section 7; RFC 7788, section 10). Reserved bits are not looked at.
///
/// # Errors
///
/// The first of these, from left to right: a prefix length above 128, `NO_PREFIX`; fixed fields or prefix bytes are
/// missing, `FIELDS_CUT`; a bit is set past the prefix length, `NO_PREFIX`; after the fixed part stands neither
/// nothing nor a pad of zeros and a list of TLVs, `NO_SUBS`; the user agent is not in UTF-8, `NO_TEXT`.
#[inline(always)]
pub fn read<'a>(tlv: &Tlv<'a>) -> Result<Item<'a>, ItemFault>
    // What is answered is so.
    ensures item { IfOk result (λ item. IsItem (plain tlv.now) (plain_item item)) }
    ensures fault { IfErr result (λ fault. IsItemFault (plain tlv.now) fault.why) }
    ensures fault_kind { IfErr result (λ fault. fault.kind ≡ tlv.now.kind) }

    // What is so is answered.
    ensures at_item { (item : PlainItem) → IsItem (plain tlv.now) item
        → IsOkAnd result (λ found. plain_item found ≡ item) }
    ensures at_fault { (why : ℕ) → IsItemFault (plain tlv.now) why
        → result ≡ Err (record { kind = tlv.now.kind; why = why }) }
{
    match read_value(tlv.kind, tlv.value) {
        Ok(item) => Ok(item),
        Err(why) => Err(ItemFault {
            kind: tlv.kind,
            why,
        }),
    }
}
