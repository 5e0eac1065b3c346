ghost use Rattle.std.specs.Prelude.{◌≡◌, ◌^◌, ◌<◌, ◌++◌, IfOk, OnOk};
ghost use Rattle.hn_advert.specs.Layout.{flags_byte, header_bytes, option_bytes};
ghost use Rattle.hn_advert.specs.Advert.{header_of, option_of, advert_bytes, IsAdvert, IsInfo};

use crate::advert::{Advert, Info};
use crate::layout::{ADVERTISEMENT, MANAGED, OTHER, PREFIX_INFORMATION, PREFIX_INFORMATION_UNITS};
use hn_base::{Bytes, NoMemory};
use std::alloc::Global;

/// The current hop limit that is advertised.
const HOP_LIMIT: u8 = 64;

/// The flags L and A of a Prefix Information option: the prefix is on the link, and hosts form addresses in it.
const ON_LINK_AND_AUTONOMOUS: u8 = 0xC0;

/// The byte of the two flags, with the reserved bits zero.
fn flags_byte(managed: bool, other: bool) -> u8
    ensures { result ≡ flags_byte managed other 0 }
{
    let managed = if managed { MANAGED } else { 0 };
    let other = if other { OTHER } else { 0 };
    managed | other
}

/// Adds the fields before the options.
fn push_header(out: &mut Vec<u8>, advert: &Advert) -> Result<(), NoMemory>
    ensures written { OnOk result (out.new.items ≡ out.old.items ++ header_bytes (header_of advert.now)) }
    ensures in_range { OnOk result (advert.now.lifetime < 2 ^ 16) }
{
    let flags = flags_byte(advert.managed, advert.other);
    let [l0, l1] = advert.lifetime.to_be_bytes();
    out.extend_from_slice(&[
        ADVERTISEMENT,
        0,
        0,
        0,
        HOP_LIMIT,
        flags,
        l0,
        l1,
        0,
        0,
        0,
        0,
        0,
        0,
        0,
        0,
    ])?;
    Ok(())
}

/// Adds the option of a prefix.
fn push_option(out: &mut Vec<u8>, info: &Info) -> Result<(), NoMemory>
    ensures written { OnOk result (out.new.items ≡ out.old.items ++ option_bytes (option_of info.now)) }
    ensures in_range { OnOk result (IsInfo info.now) }
{
    let len = info.prefix.len();
    out.extend_from_slice(&[
        PREFIX_INFORMATION,
        PREFIX_INFORMATION_UNITS,
        len,
        ON_LINK_AND_AUTONOMOUS,
    ])?;
    out.extend_from_slice(&info.valid.to_be_bytes())?;
    out.extend_from_slice(&info.preferred.to_be_bytes())?;
    out.extend_from_slice(&[0; 4])?;
    out.extend_from_slice(&info.prefix.bits().to_be_bytes())?;
    Ok(())
}

/// The bytes of a Router Advertisement (RFC 4861, sections 4.2 and 4.6.2): with hop limit 64, a Prefix Information option
/// with the flags L and A for each prefix, in order, and zero in each field that `Advert` does not have. The checksum is
/// left to the IP stack.
///
/// # Errors
///
/// Out of memory.
pub fn bytes(alloc: Global, advert: &Advert) -> Result<Bytes, NoMemory>
    ensures written { IfOk result (λ bytes. bytes ≡ advert_bytes advert.now) }
    ensures read_back { IfOk result (λ bytes. IsAdvert bytes advert.now) }
{
    let mut out = Vec::new(alloc);
    push_header(&mut out, advert)?;
    for info in advert.infos.as_slice() {
        push_option(&mut out, info)?;
    }
    Ok(Bytes::from(out))
}
