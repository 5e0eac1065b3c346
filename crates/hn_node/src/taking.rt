//! A datagram is taken.

ghost use Rattle.std.specs.Prelude.{◌≡◌, ◌≤◌, ◌⊎◌, Err, Some, Option, option_map, IfOk, IfSome};
ghost use Rattle.hn_io.specs.Faults.{IsCaused};
ghost use Rattle.hn_wire.specs.Wires.{Arrived, TakesAt};
ghost use Rattle.hn_node.specs.Turns.{arrival, address_of, TakesTurn, FailsToTake, StarvesTaking, IsShort};
ghost use Rattle.hn_node.specs.Steps.{plain_site};

use crate::logged::NodeEvent;
use crate::sending::Site;
use hn_base::{Addr, Bytes, EpId};
use hn_io::IoFault;
use hn_wire::Wire;
use std::alloc::Global;

/// The address that a source port stands for: fe80::q for port q.
fn address_of(port: u16) -> Addr
    ensures { result ≡ address_of port }
{
    Addr {
        ip: (0xfe80 << 112) + u128::from(port),
        port,
    }
}

/// What arrives of a datagram that came from a port with these bytes.
fn arrival(multicast: bool, from: u16, bytes: Bytes) -> NodeEvent
    ensures { result ≡ arrival multicast (record { from = from; bytes = bytes }) }
{
    NodeEvent::Arrive {
        endpoint: EpId(1),
        from: address_of(from),
        multicast,
        bytes,
    }
}

/// Takes the first datagram that waits at a port, by way of the buffer.
fn take_at<W: Wire>(
    alloc: Global,
    wire: &mut W,
    at: u16,
    multicast: bool,
    buffer: &mut [u8; 65_536],
) -> Result<Option<NodeEvent>, IoFault>
    ensures taken { IfOk result (λ taken. (got : Option Arrived)
        × TakesAt at got (W.waiting wire.old) (W.waiting wire.new) × (taken ≡ option_map (arrival multicast) got)) }
    ensures short { IfOk result (λ taken. IfSome taken IsShort) }
    ensures failed { result ≡ Err IoFault.Failed → W.waiting wire.new ≡ W.waiting wire.old }
    ensures starved { result ≡ Err IoFault.NoMemory → (W.waiting wire.new ≡ W.waiting wire.old)
        ⊎ ((got : Arrived) × TakesAt at (Some got) (W.waiting wire.old) (W.waiting wire.new)) }
    ensures caused { IsCaused (result ≡ Err IoFault.Failed) (W.faults wire.old) (W.faults wire.new)
        (W.never_fails wire.old) (W.never_fails wire.new) }
{
    let Some((count, from)) = wire.take(at, buffer)? else {
        return Ok(None);
    };
    match Bytes::copy_of(alloc, &buffer[..count]) {
        Ok(bytes) => Ok(Some(arrival(multicast, from, bytes))),
        Err(_) => Err(IoFault::NoMemory),
    }
}

/// Takes a datagram at the port, or else one at the next port.
pub(crate) fn take_turn<W: Wire>(
    alloc: Global,
    wire: &mut W,
    site: &Site<'_>,
    buffer: &mut [u8; 65_536],
) -> Result<Option<NodeEvent>, IoFault>
    requires { site.now.port ≤ 65534 }
    ensures taken { IfOk result (λ taken. TakesTurn (plain_site site.now) taken (W.waiting wire.old) (W.waiting wire.new)) }
    ensures short { IfOk result (λ taken. IfSome taken IsShort) }
    ensures cut { result ≡ Err IoFault.Failed → FailsToTake (plain_site site.now) (W.waiting wire.old) (W.waiting wire.new) }
    ensures starved { result ≡ Err IoFault.NoMemory → StarvesTaking (plain_site site.now) (W.waiting wire.old) (W.waiting wire.new) }
    ensures caused { IsCaused (result ≡ Err IoFault.Failed) (W.faults wire.old) (W.faults wire.new)
        (W.never_fails wire.old) (W.never_fails wire.new) }
{
    if let Some(event) = take_at(alloc, wire, site.port, false, buffer)? {
        return Ok(Some(event));
    }
    take_at(alloc, wire, site.port + 1, true, buffer)
}
