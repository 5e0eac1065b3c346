//! The options after the header (RFC 4861, sections 4.6 and 4.6.2).

ghost use Rattle.std.specs.Prelude.{◌≡◌, ◌<◌, ◌≤◌, length, Some, OnOk, IfOk, IfErr};
ghost use Rattle.hn_advert.specs.Fault.{units_of, HasWholeOption, IsOptionFault};
ghost use Rattle.hn_advert.specs.Reading.{HasOptionFirst, HasOptions, HasInfos, IsFaultOfOptions};

use crate::advert::{Info, Infos};
use crate::fault::{OPTION_CUT, OTHER_SIZE, PREFIX_TOO_LONG, RaFault};
use crate::layout::{HEADER_SIZE, PREFIX_INFORMATION, PREFIX_INFORMATION_UNITS, UNIT};
use hn_base::NoMemory;
use hn_prefix::{LONGEST_PREFIX, Prefix};
use std::alloc::Global;

/// The place of the prefix length in a Prefix Information option.
const PREFIX_LENGTH_PLACE: usize = 2;

/// The place of the prefix in a Prefix Information option.
const PREFIX_PLACE: usize = 16;

/// The prefix and the lifetimes of the Prefix Information option that begins the bytes, and the bytes after it.
fn split_prefix(bytes: &[u8]) -> Result<(Info, &[u8]), RaFault>
    requires option { HasWholeOption bytes.now 3 }
    requires size { units_of bytes.now ≡ 4 }
    ensures option { IfOk result (λ found. HasOptionFirst bytes.now (Some found.0) found.1.now) }
    ensures fault { IfErr result (λ fault. IsOptionFault bytes.now fault.place fault.why) }
{
    let (fields, rest) = bytes.split_at(PREFIX_PLACE);
    let Some((address, rest)) = rest.split_first_chunk::<16>() else {
        unreachable!()
    };
    let len = fields[PREFIX_LENGTH_PLACE];
    if len > LONGEST_PREFIX {
        return Err(RaFault {
            place: PREFIX_LENGTH_PLACE,
            why: PREFIX_TOO_LONG,
        });
    }
    let info = Info {
        prefix: Prefix::containing(u128::from_be_bytes(*address), len),
        valid: u32::from_be_bytes([fields[4], fields[5], fields[6], fields[7]]),
        preferred: u32::from_be_bytes([fields[8], fields[9], fields[10], fields[11]]),
    };
    Ok((info, rest))
}

/// What the option that begins the bytes carries, `None` if it is of another type, and the bytes after it. The place of
/// a fault is counted from the beginning of the option.
fn split_option(bytes: &[u8]) -> Result<(Option<Info>, &[u8]), RaFault>
    requires { 0 < length bytes.now }
    ensures option { IfOk result (λ found. HasOptionFirst bytes.now found.0 found.1.now) }
    ensures fault { IfErr result (λ fault. IsOptionFault bytes.now fault.place fault.why) }
    ensures within { IfErr result (λ fault. fault.place ≤ length bytes.now) }
{
    let cut = RaFault {
        place: 0,
        why: OPTION_CUT,
    };
    let [kind, units, ..] = bytes else {
        return Err(cut);
    };
    let size = usize::from(*units) * UNIT;
    if size == 0 || bytes.len() < size {
        return Err(cut);
    }
    if *kind != PREFIX_INFORMATION {
        return Ok((None, &bytes[size..]));
    }
    if *units != PREFIX_INFORMATION_UNITS {
        return Err(RaFault {
            place: 0,
            why: OTHER_SIZE,
        });
    }
    match split_prefix(bytes) {
        Ok((info, rest)) => Ok((Some(info), rest)),
        Err(fault) => Err(fault),
    }
}

/// Whether the bytes after a header are options, or the first fault. The place of a fault is counted from the beginning
/// of the message. Never allocates.
pub(crate) fn check_options(options: &[u8]) -> Result<(), RaFault>
    ensures ok { OnOk result (HasOptions options.now) }
    ensures fault { IfErr result (λ fault. IsFaultOfOptions options.now fault.place fault.why) }
{
    let mut rest = options;
    while !rest.is_empty() {
        let place = HEADER_SIZE + options.len() - rest.len();
        match split_option(rest) {
            Ok((_, after)) => rest = after,
            Err(fault) => {
                return Err(RaFault {
                    place: place + fault.place,
                    why: fault.why,
                });
            }
        }
    }
    Ok(())
}

/// What the options carry, in order.
pub(crate) fn infos_of(alloc: Global, options: &[u8]) -> Result<Infos, NoMemory>
    requires { HasOptions options.now }
    ensures { IfOk result (HasInfos options.now) }
{
    let mut infos = Infos::new(alloc);
    let mut rest = options;
    while !rest.is_empty() {
        let Ok((info, after)) = split_option(rest) else {
            unreachable!()
        };
        if let Some(info) = info {
            infos.push(info)?;
        }
        rest = after;
    }
    Ok(infos)
}
