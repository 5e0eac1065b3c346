use crate::cases::says;
use hn_advert::{PREFIX_TOO_LONG, RaFault, ReadFault};
use hn_base::{Name, NoMemory, older};
use hn_script::ScriptFault;
use hn_tlv::{ListFault, PADDING_NOT_ZERO, TlvFault};
use hn_typed::{ItemFault, NO_TEXT};
use std::test::Fail;

/// Sequence numbers around the wrap, and 2^31 apart (RFC 7787, section 4.4).
#[test]
fn older_numbers(rt: HostRuntime) {
    assert!(rt; older(4_294_967_295, 0));
    assert!(rt; older(0, 2_147_483_648));
    assert!(rt; older(2_147_483_648, 0));
    assert!(rt; !older(5, 5));
    assert!(rt; !older(0, 4_294_967_295));
}

/// The texts of names and faults.
#[test]
fn texts(rt: HostRuntime) -> Result<(), Fail> {
    let name = Name::new(b"Living-room_2").ok_or("a name")?;
    says(&rt, rt.alloc(), &name, "Living-room_2")?;
    says(&rt, rt.alloc(), &NoMemory, "out of memory")?;
    let (place, why) = (7, PADDING_NOT_ZERO);
    let fault = ListFault::Malformed(TlvFault { place, why });
    says(
        &rt,
        rt.alloc(),
        &fault,
        "TLV list at byte 7: a pad byte is not zero",
    )?;
    let (kind, why) = (32, NO_TEXT);
    let fault = ItemFault { kind, why };
    says(
        &rt,
        rt.alloc(),
        &fault,
        "TLV of type 32: the user agent is not in UTF-8",
    )?;
    let (place, why) = (18, PREFIX_TOO_LONG);
    let fault = ReadFault::Ra(RaFault { place, why });
    let text = "Router Advertisement at byte 18: a prefix length is above 128";
    says(&rt, rt.alloc(), &fault, text)?;
    let (line, code) = (4, 2);
    let fault = ScriptFault { line, code };
    says(&rt, rt.alloc(), &fault, "line 4 has a fault of code 2")
}
