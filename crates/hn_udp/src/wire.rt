ghost use Rattle.std.specs.Prelude.{◌≡◌, None, Err};
ghost use Rattle.hn_io.specs.Faults.{Rose};

use crate::sockets;
use hn_io::IoFault;
use hn_wire::{MOST_WIRE_BYTES, Wire};
use std::alloc::Global;
use std::io;
use std::net::{Net, UdpSocket};
use std::time::Duration;

/// The limit of the time that a take waits where it waits, in milliseconds.
const WAIT: u64 = 1;

/// A port that is bound.
#[derive(Drop)]
struct Bound {
    port: u16,
    socket: UdpSocket,
}

/// A wire over sockets at 127.0.0.1. It tells no content.
///
/// A port is bound at its first use: a take at it, and a send from it, which binds the next port too, since there the
/// answers are taken. A take at a port waits a short time if the port before it was bound earlier, and else not at all.
#[derive(Drop)]
pub struct UdpWire<R> {
    rt: R,
    bound: Vec<Bound>,
    pub faults: u64,
}

/// The count after one more fault.
fn after_fault(faults: u64) -> u64
    ensures { Rose faults result }
{
    faults.saturating_add(1)
}

impl<R: Net> UdpWire<R> {
    /// A wire without a socket. Never allocates.
    pub fn new(alloc: Global, rt: R) -> UdpWire<R>
        ensures { result.faults ≡ 0 }
    {
        UdpWire {
            rt,
            bound: Vec::new(alloc),
            faults: 0,
        }
    }

    /// The socket of a port, if it is bound.
    fn socket_of(&self, port: u16) -> Option<&UdpSocket> {
        let bound = self.bound.iter().find(|bound| bound.port == port)?;
        Some(&bound.socket)
    }

    /// Whether a take at a port waits: the port before it is bound.
    fn waits(&self, port: u16) -> bool {
        match port.checked_sub(1) {
            Some(before) => self.socket_of(before).is_some(),
            None => false,
        }
    }

    /// A socket that is bound to a port.
    fn open(&self, port: u16) -> io::Result<UdpSocket> {
        let socket = sockets::bind(&self.rt, sockets::address(port))?;
        if self.waits(port) {
            socket.set_read_timeout(Some(Duration::from_millis(WAIT)))?;
        } else {
            socket.set_nonblocking(true)?;
        }
        Ok(socket)
    }

    /// Binds a port, unless it is bound.
    fn bind(&mut self, port: u16) -> Result<(), IoFault>
        ensures { self.new.faults ≡ self.old.faults }
    {
        if self.socket_of(port).is_some() {
            return Ok(());
        }
        let Ok(socket) = self.open(port) else {
            return Err(IoFault::Failed);
        };
        match self.bound.push(Bound { port, socket }) {
            Ok(()) => Ok(()),
            Err(_) => Err(IoFault::NoMemory),
        }
    }

    /// Binds a port and the next one.
    fn bind_both(&mut self, port: u16) -> Result<(), IoFault>
        ensures { self.new.faults ≡ self.old.faults }
    {
        self.bind(port)?;
        match port.checked_add(1) {
            Some(next) => self.bind(next),
            None => Ok(()),
        }
    }

    /// Sends a datagram, and does not count a fault.
    fn put(&mut self, from: u16, to: u16, bytes: &[u8]) -> Result<(), IoFault>
        ensures { self.new.faults ≡ self.old.faults }
    {
        self.bind_both(from)?;
        let Some(socket) = self.socket_of(from) else {
            return Err(IoFault::Failed);
        };
        sockets::send(socket, bytes, sockets::address(to))
    }

    /// Takes a datagram, if there is one, and does not count a fault.
    fn get(&mut self, at: u16, buf: &mut [u8]) -> Result<Option<(usize, u16)>, IoFault>
        ensures faults { self.new.faults ≡ self.old.faults }
        ensures unlent { result ≡ Err IoFault.NoMemory → buf.new ≡ buf.old }
    {
        self.bind(at)?;
        let Some(socket) = self.socket_of(at) else {
            return Err(IoFault::Failed);
        };
        sockets::receive(socket, buf)
    }
}

impl<R: Net> Wire for UdpWire<R> {
    ghost faults = { λ w. w.faults };

    ghost waiting = { λ _. None };

    ghost never_fails = { λ _. ⊥ };

    /// # Errors
    ///
    /// `Failed` where a socket fails, and the count of faults rises. When it comes the system decides: no clause says.
    /// Else out of memory.
    fn send(&mut self, from: u16, to: u16, bytes: &[u8]) -> Result<(), IoFault> {
        let sent = self.put(from, to, bytes);
        if let Err(IoFault::Failed) = sent {
            self.faults = after_fault(self.faults);
        }
        sent
    }

    /// A datagram of more than 65,507 bytes is a fault.
    ///
    /// # Errors
    ///
    /// `Failed` where a socket fails, and the count of faults rises. When it comes the system decides: no clause says.
    /// Else out of memory.
    fn take(&mut self, at: u16, buf: &mut [u8]) -> Result<Option<(usize, u16)>, IoFault> {
        match self.get(at, buf) {
            Ok(Some((count, _))) if count > MOST_WIRE_BYTES => {}
            Err(IoFault::Failed) => {}
            got => return got,
        }
        self.faults = after_fault(self.faults);
        Err(IoFault::Failed)
    }
}
