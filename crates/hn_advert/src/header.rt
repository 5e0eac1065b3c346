//! The fields before the options (RFC 4861, section 4.2).

ghost use Rattle.std.specs.Prelude.{IfOk, IfErr};
ghost use Rattle.hn_advert.specs.Fault.{IsHeaderFault};
ghost use Rattle.hn_advert.specs.Reading.{HasFlags, HasHeaderFirst};

use crate::fault::{HEADER_CUT, OTHER_CODE, OTHER_TYPE, RaFault};
use crate::layout::{ADVERTISEMENT, HEADER_SIZE, MANAGED, OTHER};

/// The fields before the options that are kept.
#[derive(Clone, Copy)]
pub(crate) struct Fixed {
    pub(crate) managed: bool,
    pub(crate) other: bool,
    pub(crate) lifetime: u16,
}

/// The two flags of a byte.
fn flags_of(byte: u8) -> (bool, bool)
    ensures { HasFlags byte result.0 result.1 }
{
    (byte & MANAGED != 0, byte & OTHER != 0)
}

/// The fields before the options, and the bytes after them. Never allocates.
pub(crate) fn split_header(bytes: &[u8]) -> Result<(Fixed, &[u8]), RaFault>
    ensures header { IfOk result (λ found. HasHeaderFirst bytes.now found.0 found.1.now) }
    ensures fault { IfErr result (λ fault. IsHeaderFault bytes.now fault.place fault.why) }
{
    let Some((header, options)) = bytes.split_first_chunk::<HEADER_SIZE>() else {
        return Err(RaFault {
            place: bytes.len(),
            why: HEADER_CUT,
        });
    };
    if header[0] != ADVERTISEMENT {
        return Err(RaFault {
            place: 0,
            why: OTHER_TYPE,
        });
    }
    if header[1] != 0 {
        return Err(RaFault {
            place: 1,
            why: OTHER_CODE,
        });
    }
    let (managed, other) = flags_of(header[5]);
    let fixed = Fixed {
        managed,
        other,
        lifetime: u16::from_be_bytes([header[6], header[7]]),
    };
    Ok((fixed, options))
}
