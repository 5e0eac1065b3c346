ghost use Rattle.std.specs.Prelude.{◌≡◌, ◌⊎◌, ◌↔◌, ℕ, Ok, Err, IfOk};
ghost use Rattle.hn_advert.specs.declared.advert.Advert.{Advert};
ghost use Rattle.hn_advert.specs.Advert.{IsAdvert};
ghost use Rattle.hn_advert.specs.Fault.{AdvertFault};

use crate::advert::Advert;
use crate::fault::ReadFault;
use crate::header::split_header;
use crate::options::{check_options, infos_of};
use std::alloc::Global;

/// Reads a Router Advertisement (RFC 4861, sections 4.2 and 4.6.2). Of the header, type and code, the two flags and the
/// router lifetime are looked at; of a Prefix Information option, all but its flags and its reserved field. Options of
/// other types are skipped by their length. Bits of a prefix past its length are set to zero.
///
/// # Errors
///
/// `Ra` if and only if the bytes are no Router Advertisement, with the first fault, which is found without allocating:
/// fewer than 16 bytes, `HEADER_CUT`; a type other than 134, `OTHER_TYPE`; a code other than 0, `OTHER_CODE`; and then
/// the first option that has a length of 0, passes the end or has only one byte left, `OPTION_CUT`, or that is of type 3
/// and has a length other than 4, `OTHER_SIZE`, or a prefix length above 128, `PREFIX_TOO_LONG`. `NoMemory`: out of
/// memory.
pub fn read(alloc: Global, bytes: &[u8]) -> Result<Advert, ReadFault>
    ensures advert { IfOk result (IsAdvert bytes.now) }
    ensures fault { (place why : ℕ)
        → (result ≡ Err (ReadFault.Ra (record { place = place; why = why }))) ↔ AdvertFault bytes.now place why }
    // Bytes that are an advertisement are read, unless memory runs out.
    ensures at_advert { (advert : Advert) → IsAdvert bytes.now advert
        → (result ≡ Ok advert) ⊎ (result ≡ Err ReadFault.NoMemory) }
{
    let (fixed, options) = split_header(bytes)?;
    check_options(options)?;
    let infos = infos_of(alloc, options)?;
    Ok(Advert {
        managed: fixed.managed,
        other: fixed.other,
        lifetime: fixed.lifetime,
        infos,
    })
}
