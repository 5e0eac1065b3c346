//! What a line says of an event.

ghost use Rattle.std.specs.Prelude.{◌≡◌, ◌++◌, List, ℕ, OnOk, string_bytes};
ghost use Rattle.std.specs.List.{flat_map};
ghost use Rattle.hn_look.specs.Events.{way_word, address_words, addresses_text, injection_text, other_text, event_text};

use hn_base::{Addr, EpId, Hex, Name};
use hn_lab::line_of;
use hn_prefix::address_text;
use hn_script::Line;
use hn_world::WEvent;
use std::alloc::AllocError;

/// How a datagram comes.
pub(crate) fn way_word(multicast: bool) -> &'static str
    ensures { result.now ≡ way_word multicast }
{
    if multicast { "multi" } else { "uni" }
}

/// Adds addresses, each with the endpoint that it is of.
fn push_addresses(text: &mut String, name: &Name, list: &[(EpId, u128)]) -> Result<(), AllocError>
    ensures { OnOk result (string_bytes text.new ≡ string_bytes text.old ++ addresses_text name.now list.now) }
{
    write!(text, "addresses {name}")?;
    for own in list {
        let EpId(e) = own.0;
        let address = address_text(own.1);
        write!(text, " {e} {address}")?;
    }
    Ok(())
}

/// Adds a datagram from outside of the world.
fn push_injection(
    text: &mut String,
    name: &Name,
    endpoint: EpId,
    from: Addr,
    multicast: bool,
    bytes: &[u8],
) -> Result<(), AllocError>
    ensures { OnOk result (string_bytes text.new ≡ string_bytes text.old ++ injection_text name.now endpoint from multicast bytes.now) }
{
    let EpId(e) = endpoint;
    let way = way_word(multicast);
    let address = address_text(from.ip);
    let port = from.port;
    let bytes = Hex(bytes);
    write!(text, "inject {name} {e} {way} {address} {port} {bytes}")
}

/// Adds an event that is no line of a script.
fn push_other(text: &mut String, event: &WEvent) -> Result<(), AllocError>
    ensures { OnOk result (string_bytes text.new ≡ string_bytes text.old ++ other_text event.now) }
{
    match event {
        WEvent::Addresses { name, list } => push_addresses(text, name, list.as_slice()),
        WEvent::Inject {
            name,
            endpoint,
            from,
            multicast,
            bytes,
        } => push_injection(text, name, *endpoint, *from, *multicast, bytes.as_slice()),
        _ => Ok(()),
    }
}

/// Adds an event, as a script has it where it has such a line.
pub(crate) fn push_event(text: &mut String, event: &WEvent) -> Result<(), AllocError>
    ensures { OnOk result (string_bytes text.new ≡ string_bytes text.old ++ event_text event.now) }
{
    match line_of(event) {
        Some(line) => write!(text, "{line}"),
        None => push_other(text, event),
    }
}
