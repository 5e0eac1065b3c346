use crate::wires::{sent, sent_two, taken};
use hn_io::IoFault;
use hn_udp::UdpWire;
use hn_wire::{MOST_WIRE_BYTES, Wire};
use std::net::{Ipv4Addr, SocketAddrV4, UdpSocket};
use std::test::Fail;

/// A wire that sent a datagram from the first port from 61000 on that is free with the next one, and these two ports.
/// They have 16 bits, and are above those that the system gives by itself.
fn first_send(rt: &HostRuntime) -> Option<(UdpWire<&HostRuntime>, u16, u16)> {
    for port in 61_000..65_000 {
        let mut wire = UdpWire::new(rt.alloc(), rt);
        if sent_two(&mut wire, port, port + 1, 5).is_ok() {
            return Some((wire, port, port + 1));
        }
    }
    None
}

#[test]
fn a_datagram_goes_over_loopback(rt: HostRuntime) -> Result<(), Fail> {
    let (mut wire, port, next) = first_send(&rt).ok_or("no two ports are free")?;
    assert!(rt; taken(&mut wire, next) == (Ok(Some((2, port))), [5, 6]));
    assert!(rt; taken(&mut wire, next).0 == Ok(None));
    assert!(rt; taken(&mut wire, port).0 == Ok(None));
    let mut other = UdpWire::new(rt.alloc(), &rt);
    assert!(rt; taken(&mut other, next).0 == Err(IoFault::Failed));
    assert!(rt; wire.faults == 0 && other.faults == 1);
    Ok(())
}

/// The system refuses a send to port 0, and a datagram to a port that nobody has bound it drops without a sign.
#[test]
fn a_send_that_the_system_refuses_is_a_fault(rt: HostRuntime) -> Result<(), Fail> {
    let (mut wire, port, next) = first_send(&rt).ok_or("no two ports are free")?;
    assert!(rt; sent(&mut wire, port, 0, 7) == Err(IoFault::Failed));
    assert!(rt; wire.faults == 1);
    assert!(rt; sent(&mut wire, port, 1, 8) == Ok(()));
    assert!(rt; sent(&mut wire, port, next, 9) == Ok(()));
    assert!(rt; taken(&mut wire, next) == (Ok(Some((2, port))), [5, 6]));
    assert!(rt; taken(&mut wire, next) == (Ok(Some((1, port))), [9, 9]));
    assert!(rt; taken(&mut wire, next).0 == Ok(None));
    assert!(rt; wire.faults == 1);
    Ok(())
}

#[test]
fn the_longest_and_the_empty_datagram_go_whole(rt: HostRuntime) -> Result<(), Fail> {
    let (mut wire, port, next) = first_send(&rt).ok_or("no two ports are free")?;
    assert!(rt; wire.send(port, next, &[7; MOST_WIRE_BYTES]) == Ok(()));
    assert!(rt; wire.send(port, next, &[]) == Ok(()));
    assert!(rt; taken(&mut wire, next).0 == Ok(Some((2, port))));
    let mut buf = [9; 65_536];
    assert!(rt; wire.take(next, &mut buf) == Ok(Some((MOST_WIRE_BYTES, port))));
    assert!(rt; buf.iter().take(MOST_WIRE_BYTES).all(|byte| *byte == 7));
    assert!(rt; wire.take(next, &mut buf) == Ok(Some((0, port))));
    assert!(rt; wire.take(next, &mut buf) == Ok(None));
    Ok(())
}

/// A port of another address of this machine, as all of 127.0.0.0/8 are (RFC 1122, section 3.2.1.3).
fn elsewhere(port: u16) -> SocketAddrV4 {
    SocketAddrV4::new(Ipv4Addr::new(127, 0, 0, 2), port)
}

#[test]
fn other_addresses_of_the_machine_are_not_bound(rt: HostRuntime) -> Result<(), Fail> {
    let (mut wire, port, next) = first_send(&rt).ok_or("no two ports are free")?;
    assert!(rt; taken(&mut wire, next).0 == Ok(Some((2, port))));
    let socket = UdpSocket::bind(&rt, elsewhere(0))?;
    assert!(rt; socket.send_to(&[7], elsewhere(next))? == 1);
    assert!(rt; taken(&mut wire, next).0 == Ok(None));
    assert!(rt; UdpSocket::bind(&rt, elsewhere(port)).is_ok());
    assert!(rt; UdpSocket::bind(&rt, elsewhere(next)).is_ok());
    Ok(())
}
