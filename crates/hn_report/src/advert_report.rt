//! The report on a Router Advertisement.

ghost use Rattle.std.specs.Prelude.{IfOk, string_bytes};
ghost use Rattle.hn_report.specs.AdvertReports.{IsAdvertLine};

use hn_base::{EpId, Hex, Name, NoMemory};
use hn_world::Member;
use std::alloc::Global;

/// The line on what a router advertises on an endpoint.
pub fn advert_line(
    alloc: Global,
    name: &Name,
    member: &Member,
    endpoint: EpId,
) -> Result<String, NoMemory>
    ensures { IfOk result (λ line. IsAdvertLine name.now endpoint member.now (string_bytes line)) }
{
    let advert = member.router.advert(alloc, endpoint)?;
    let EpId(e) = endpoint;
    let bytes = Hex(advert.as_slice());
    Ok(format!(in alloc; "advert {name} {e} {bytes}\n")?)
}
