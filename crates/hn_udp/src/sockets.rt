ghost use Rattle.std.specs.Prelude.{◌≡◌, Err};
ghost use Rattle.std.specs.Net.Socket.{socket_port};
ghost use Rattle.hn_udp.specs.Loopback.{IsLoopback};

use hn_io::IoFault;
use std::io;
use std::io::ErrorKind;
use std::net::{Ipv4Addr, Net, SocketAddr, SocketAddrV4, UdpSocket};

/// A port of this machine: its address at 127.0.0.1.
pub(crate) fn address(port: u16) -> SocketAddr
    ensures loopback { IsLoopback result }
    ensures port { socket_port result ≡ port }
{
    SocketAddr::V4(SocketAddrV4::new(Ipv4Addr::LOCALHOST, port))
}

/// Asks the system for a socket that is bound to an address, which is one of 127.0.0.1.
pub(crate) fn bind<R: Net>(net: &R, at: SocketAddr) -> io::Result<UdpSocket>
    requires loopback { IsLoopback at }
{
    UdpSocket::bind(net, at)
}

/// Whether the system had nothing to give.
fn is_empty(error: &io::Error) -> bool {
    let kind = error.kind();
    kind == ErrorKind::WouldBlock || kind == ErrorKind::TimedOut
}

/// Sends a datagram to an address of this machine. A call that is interrupted by a signal is tried again, as std does.
pub(crate) fn send(socket: &UdpSocket, bytes: &[u8], to: SocketAddr) -> Result<(), IoFault>
    requires loopback { IsLoopback to }
{
    for _ in 0..u64::MAX {
        match socket.send_to(bytes, to) {
            Ok(_) => return Ok(()),
            Err(error) => {
                if error.kind() != ErrorKind::Interrupted {
                    break;
                }
            }
        }
    }
    Err(IoFault::Failed)
}

/// Receives a datagram, if there is one. A call that is interrupted by a signal is tried again, as std does.
pub(crate) fn receive(socket: &UdpSocket, buf: &mut [u8]) -> Result<Option<(usize, u16)>, IoFault>
    ensures { ¬ (result ≡ Err IoFault.NoMemory) }
{
    for _ in 0..u64::MAX {
        match socket.recv_from(buf) {
            Ok((count, from)) => return Ok(Some((count, from.port()))),
            Err(error) => {
                if is_empty(&error) {
                    return Ok(None);
                }
                if error.kind() != ErrorKind::Interrupted {
                    break;
                }
            }
        }
    }
    Err(IoFault::Failed)
}
