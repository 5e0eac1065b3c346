ghost use Rattle.std.specs.Prelude.{◌≡◌, ◌≤◌, ◌++◌, ◌↔◌, [], ◌∷◌, Some, None, Ok, Err, length, option_map, IfOk, IfSome, OnOk, OnErr};
ghost use Rattle.std.specs.List.{slice_get};
ghost use Rattle.hn_wire.specs.Wires.{first_at, waiting_at};

use crate::datagram::Datagram;
use crate::wire::Wire;
use hn_base::Bytes;
use hn_io::{Calls, IoFault};
use std::alloc::Global;
use std::marker::Model;

/// A wire in memory. The calls whose numbers are listed fail; sends and takes are numbered together, from 1.
#[derive(Drop)]
pub struct MemWire {
    alloc: Global,
    waiting: Vec<Datagram>,
    calls: Calls,
}

impl Model for MemWire {
    ghost use Rattle.std.specs.Prelude.{◌≤◌, All, length};
    ghost use Rattle.hn_wire.specs.Memory.{MemoryWire};

    ghost Value = { MemoryWire };

    ghost view = { λ w. record { waiting = w.waiting.items; calls = w.calls } };

    ghost invariant = { λ w. All (λ d. length d.bytes ≤ 65507) w.waiting.items };
}

/// The place of the first datagram that goes to a port.
fn first_at(waiting: &[Datagram], at: u16) -> Option<usize>
    ensures { result ≡ first_at at waiting.now }
{
    waiting.iter().position(|d| d.to == at)
}

/// The datagram at a place, from 0, among those that go to a port.
fn datagram_at(waiting: &[Datagram], at: u16, place: usize) -> Option<&Datagram>
    ensures { option_map (λ d. d.now) result ≡ slice_get (waiting_at at waiting.now) place }
{
    waiting.iter().filter(|d| d.to == at).nth(place)
}

impl MemWire {
    ghost use Rattle.hn_wire.specs.Wires.{waits_at};

    /// A wire on which nothing waits. Never allocates.
    pub fn new(alloc: Global, fails: Vec<u64>) -> MemWire
        ensures waiting { result.waiting ≡ [] }
        ensures made { result.calls.made ≡ 0 }
        ensures fails { result.calls.fails ≡ fails.items }
    {
        MemWire {
            alloc,
            waiting: Vec::new(alloc),
            calls: Calls::new(fails),
        }
    }

    /// The port that the datagram at a place, from 0, among those that wait at a port came from, and its bytes; `None`
    /// if and only if nothing waits at that place. Never allocates.
    pub fn waits(&self, port: u16, place: usize) -> Option<(u16, &[u8])>
        ensures { option_map (λ t. record { from = t.0; bytes = t.1.now }) result ≡ waits_at port place self.now.waiting }
    {
        match datagram_at(&self.waiting, port, place) {
            Some(datagram) => Some((datagram.from, datagram.bytes.as_slice())),
            None => None,
        }
    }
}

impl Wire for MemWire {
    ghost use Rattle.hn_io.specs.Faults.{IsCaused};
    ghost use Rattle.hn_io.specs.Memory.{IsListed, called, faults_so_far};
    ghost use Rattle.hn_wire.specs.Wires.{TakesOf, arrived};

    ghost faults = { λ w. faults_so_far w.calls };

    ghost waiting = { λ w. Some w.waiting };

    ghost never_fails = { λ w. w.calls.fails ≡ [] };

    /// # Errors
    ///
    /// `Failed` if and only if the number of the call is listed; else out of memory.
    fn send(&mut self, from: u16, to: u16, bytes: &[u8]) -> Result<(), IoFault>
        requires { length bytes.now ≤ 65507 }
        ensures sent { OnOk result (self.new.waiting ≡ self.old.waiting ++ record { from = from; to = to; bytes = bytes.now } ∷ []) }
        ensures err { OnErr result (self.new.waiting ≡ self.old.waiting) }
        ensures caused { IsCaused (result ≡ Err IoFault.Failed) (faults_so_far self.old.calls) (faults_so_far self.new.calls)
            (self.old.calls.fails ≡ []) (self.new.calls.fails ≡ []) }
        ensures called { self.new.calls ≡ called self.old.calls }
        ensures listed { (result ≡ Err IoFault.Failed) ↔ IsListed self.old.calls }
    {
        if self.calls.fails_now() {
            return Err(IoFault::Failed);
        }
        let Ok(bytes) = Bytes::copy_of(self.alloc, bytes) else {
            return Err(IoFault::NoMemory);
        };
        match self.waiting.push(Datagram { from, to, bytes }) {
            Ok(()) => Ok(()),
            Err(_) => Err(IoFault::NoMemory),
        }
    }

    /// Never allocates. The buffer changes only where a datagram is taken. `None` if and only if nothing waits at the
    /// port and the call does not fail.
    ///
    /// # Errors
    ///
    /// `Failed` if and only if the number of the call is listed.
    fn take(&mut self, at: u16, buf: &mut [u8]) -> Result<Option<(usize, u16)>, IoFault>
        requires { length buf.old ≡ 65536 }
        ensures count { IfOk result (λ got. IfSome got (λ t. t.0 ≤ 65507)) }
        ensures taken { IfOk result (λ got. TakesOf at (arrived got buf.new) self.old.waiting self.new.waiting) }
        ensures err { OnErr result (self.new.waiting ≡ self.old.waiting) }
        ensures caused { IsCaused (result ≡ Err IoFault.Failed) (faults_so_far self.old.calls) (faults_so_far self.new.calls)
            (self.old.calls.fails ≡ []) (self.new.calls.fails ≡ []) }
        ensures called { self.new.calls ≡ called self.old.calls }
        ensures listed { (result ≡ Err IoFault.Failed) ↔ IsListed self.old.calls }
        ensures no_memory { ¬ (result ≡ Err IoFault.NoMemory) }
        ensures none { result ≡ Ok None → buf.new ≡ buf.old }
        ensures untouched { OnErr result (buf.new ≡ buf.old) }
    {
        if self.calls.fails_now() {
            return Err(IoFault::Failed);
        }
        let Some(place) = first_at(&self.waiting, at) else {
            return Ok(None);
        };
        let datagram = self.waiting.remove(place);
        let bytes = datagram.bytes.as_slice();
        let count = bytes.len();
        buf[..count].copy_from_slice(bytes);
        Ok(Some((count, datagram.from)))
    }
}
