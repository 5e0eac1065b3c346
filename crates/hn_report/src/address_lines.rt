//! The lines on the addresses that a router has.

ghost use Rattle.std.specs.Prelude.{◌≡◌, ◌++◌, map, IfOk, OnOk, string_bytes};
ghost use Rattle.hn_report.specs.AddressLines.{address_line, addresses_lines};

use hn_base::{EpId, Name, NoMemory};
use hn_prefix::address_text;
use hn_streams::Lines;
use hn_world::Member;
use std::alloc::{AllocError, Global};

/// The line on an own address.
fn address_line(alloc: Global, name: &Name, own: &(EpId, u128)) -> Result<String, AllocError>
    ensures { IfOk result (λ line. string_bytes line ≡ address_line name.now own.now) }
{
    let EpId(e) = own.0;
    let address = address_text(own.1);
    format!(in alloc; "address {name} ep={e} is={address}\n")
}

/// Adds a line on each own address.
fn add_address_lines(
    alloc: Global,
    lines: &mut Lines,
    name: &Name,
    addresses: &[(EpId, u128)],
) -> Result<(), NoMemory>
    ensures { OnOk result (lines.new ≡ lines.old ++ map (address_line name.now) addresses.now) }
{
    for own in addresses {
        lines.push(address_line(alloc, name, own)?)?;
    }
    Ok(())
}

/// The lines on the addresses that a router has.
pub fn addresses_lines(alloc: Global, name: &Name, member: &Member) -> Result<Lines, NoMemory>
    ensures { IfOk result (λ lines. lines ≡ addresses_lines name.now member.now) }
{
    let addresses = member.router.addresses();
    let mut lines = Lines::new(alloc);
    let count = addresses.len();
    lines.push(format!(in alloc; "addresses {name} {count}\n")?)?;
    add_address_lines(alloc, &mut lines, name, addresses)?;
    Ok(lines)
}
