//! Which rules an event runs, and in which order.

ghost use Rattle.std.specs.Prelude.{◌≡◌, ◌<◌, ◌^◌, false, OnOk, All};
ghost use Rattle.hn_own.specs.Ranges.{IsRangedAddress};
ghost use Rattle.hn_base.specs.Prefix.{IsPrefix};
ghost use Rattle.hn_rules.specs.Given.{IsPrivateLength};
ghost use Rattle.hn_base.specs.Byte.{IsByte};
ghost use Rattle.hn_router.specs.Act.{plain_event, is_refused, IsEventInRange, IsOfBytes, IsEventRule, Arrive, Attach, HasRun};
ghost use Rattle.hn_rules.specs.Router.{IsRefreshed, IsRouter};
ghost use Rattle.hn_rules.specs.Rules.{Ran};

use crate::edit::edit;
use crate::event::Event;
use hn_base::{EpId, LinkLength, NoMemory, link_local};
use hn_io::Draw;
use hn_prefix::Prefix;
use hn_rules::{Note, Origin, Running, State};
use hn_tlv::check;
use std::alloc::Global;

/// The number of an endpoint has 32 bits. Does nothing: call it to know its law.
fn endpoint_in_range(at: EpId)
    ensures { at.0 < 2 ^ 32 }
{}

/// A delegated prefix is one, and its lifetimes have 32 bits. Does nothing: call it to know its law.
fn delegation_in_range(prefix: Prefix, valid: u32, preferred: u32)
    ensures prefix { IsPrefix prefix }
    ensures valid { valid < 2 ^ 32 }
    ensures preferred { preferred < 2 ^ 32 }
{
    let _length = prefix.len();
}

/// The prefixes of a private link have from 1 to 64 bits. Does nothing: call it to know its law.
fn private_in_range(private: Option<LinkLength>)
    ensures { IsPrivateLength private }
{
    match private {
        Some(length) => {
            let _bits = length.get();
        }
        None => {}
    }
}

/// An address has 128 bits, and the number of its endpoint 32. Does nothing: call it to know its law.
fn address_in_range(endpoint: EpId, address: u128)
    ensures endpoint { endpoint.0 < 2 ^ 32 }
    ensures address { address < 2 ^ 128 }
{}

/// So it is of each of a list. Changes nothing: call it to know its law.
fn addresses_in_range(list: &[(EpId, u128)])
    ensures { All IsRangedAddress list.now }
{
    for own in list {
        address_in_range(own.0, own.1);
    }
}

/// A datagram is of bytes. Does nothing: call it to know its law.
fn bytes_in_range(bytes: &[u8])
    ensures { All IsByte bytes.now }
{
    let _none = bytes.is_empty();
}

/// A datagram that arrives is of bytes, by its type. Does nothing: call it to know its law.
pub fn event_of_bytes(event: &Event<'_>)
    ensures { IsOfBytes (plain_event event.now) }
{
    if let Event::Arrive { bytes, .. } = *event {
        bytes_in_range(bytes);
    }
}

/// What an event gives a router fits, by the types of what it is made of. Changes nothing: call it to know its law.
pub fn event_in_range(event: &Event<'_>)
    ensures { IsEventInRange (plain_event event.now) }
{
    match *event {
        Event::Attach { endpoint } => endpoint_in_range(endpoint),
        Event::External {
            prefix,
            valid,
            preferred,
        } => delegation_in_range(prefix, valid, preferred),
        Event::Private { length } => private_in_range(length),
        Event::Addresses { list } => addresses_in_range(list),
        _ => {}
    }
}

/// Whether an endpoint cannot be attached.
fn refuses_attach(state: &State, at: EpId) -> bool
    ensures { result ≡ is_refused (Attach at) state.now }
{
    let ports = state.ports.get();
    at == EpId(0) || ports.has(at) || !ports.has_room()
}

/// Whether the event is refused.
fn refuses(state: &State, event: &Event<'_>) -> bool
    ensures { result ≡ is_refused (plain_event event.now) state.now }
{
    match *event {
        Event::Arrive { endpoint, .. } | Event::Detach { endpoint } => {
            !state.ports.get().has(endpoint)
        }
        Event::Attach { endpoint } => refuses_attach(state, endpoint),
        Event::External { prefix, .. } => !state.delegated.get().may_have(&prefix),
        Event::Addresses { list } => !state.ports.get().may_address(list),
        _ => false,
    }
}

/// A datagram arrives at an endpoint that is attached.
fn arrive<D: Draw>(
    alloc: Global,
    running: &mut Running,
    from: &Origin,
    bytes: &[u8],
    draw: &mut D,
) -> Result<(), NoMemory>
    requires { IsRefreshed running.old.state }
    ensures { OnOk result
        (Ran (IsEventRule (Arrive from.now bytes.now)) (D.words draw.old) (D.words draw.new) running.old running.new) }
{
    if !link_local(&from.from) {
        return running.note(Note::Far);
    }
    match check(bytes) {
        Ok(_) => running.arrival(alloc, from, bytes, draw),
        Err(fault) => running.note(Note::Malformed {
            place: fault.place,
            why: fault.why,
        }),
    }
}

/// The rules of an event that is not refused: those of an arrival or a tick, or its edit and then a refresh.
fn run_rules<D: Draw>(
    alloc: Global,
    running: &mut Running,
    event: &Event<'_>,
    draw: &mut D,
) -> Result<(), NoMemory>
    requires accepted { is_refused (plain_event event.now) running.old.state ≡ false }
    requires router { IsRouter running.old.state }
    ensures { OnOk result
        (Ran (IsEventRule (plain_event event.now)) (D.words draw.old) (D.words draw.new) running.old running.new) }
{
    match *event {
        Event::Arrive {
            endpoint,
            from,
            multicast,
            bytes,
        } => {
            let origin = Origin {
                endpoint,
                from,
                multicast,
            };
            arrive(alloc, running, &origin, bytes, draw)
        }
        Event::Tick => running.tick(alloc, draw),
        _ => {
            edit(alloc, running, event, draw)?;
            running.refresh(alloc, true, draw)
        }
    }
}

/// An event: a refused one is noted.
pub(crate) fn run<D: Draw>(
    alloc: Global,
    running: &mut Running,
    event: &Event<'_>,
    draw: &mut D,
) -> Result<(), NoMemory>
    requires { IsRouter running.old.state }
    ensures { OnOk result (HasRun (plain_event event.now) (D.words draw.old) (D.words draw.new) running.old running.new) }
{
    if refuses(&running.state, event) {
        return running.note(Note::Refused);
    }
    run_rules(alloc, running, event, draw)
}
