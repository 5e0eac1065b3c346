//! How copies are carried: by mail, or over a wire.

ghost use Rattle.std.specs.Prelude.{◌≡◌, ◌≤◌, [], Err, length, IfOk, OnOk};
ghost use Rattle.hn_io.specs.Faults.{IsCaused};
ghost use Rattle.hn_io.specs.declared.fault.IoFault.{IoFault};
ghost use Rattle.hn_play.specs.Carrying.{Carries, Breaks, Starves};
ghost use Rattle.hn_play.specs.Stage.{OverWire as FromBase};

use hn_base::{Bytes, NoMemory};
use hn_io::IoFault;
use hn_wire::Wire;
use std::alloc::Global;
use std::marker::Model;

/// What came of a copy that was carried.
#[derive(Drop)]
pub enum Carried {
    /// Its bytes came back.
    Same,
    /// Nothing came back.
    Lost,
    /// Other bytes came back.
    Other(Bytes),
}

/// What a take asks for: more than the greatest datagram.
const ROOM: usize = 65_536;

/// Room for what comes back from a wire. It is made with the first copy that is carried.
#[derive(Drop)]
pub struct Room {
    pub bytes: Vec<u8>,
}

impl Room {
    /// No room so far. Never allocates.
    pub(crate) fn new(alloc: Global) -> Room
        ensures { result.bytes.items ≡ [] }
    {
        Room {
            bytes: Vec::new(alloc),
        }
    }

    /// The room is made, where there is none.
    ///
    /// # Errors
    ///
    /// Out of memory.
    fn make(&mut self, alloc: Global) -> Result<(), NoMemory>
        ensures made { OnOk result (length self.new.bytes.items ≡ 65536) }
    {
        if self.bytes.len() != ROOM {
            self.bytes = vec![in alloc; 0; ROOM]?;
        }
        Ok(())
    }
}

/// What carries copies. Outside of the play it has no more than a `W`.
pub trait Carrier<W> {
    ghost use Rattle.std.specs.Prelude.{ℕ};
    ghost use Rattle.hn_play.specs.Stage.{Route};

    /// How copies go, with what waits outside.
    ghost route: { Self → W → Route };

    /// How many calls have failed so far.
    ghost faults: { W → ℕ };

    /// Holds of an outside whose calls never fail, now and later.
    ghost never_fails: { W → Type 0 };

    /// Carries the bytes of a copy. What comes back is written to the room.
    ///
    /// # Errors
    ///
    /// The wire failed, or memory ended; then the bytes may be sent, or sent and taken, but to no other port.
    fn carry(
        &self,
        alloc: Global,
        outside: &mut W,
        room: &mut Room,
        bytes: &[u8],
    ) -> Result<Carried, IoFault>
        requires { length bytes.now ≤ 65507 }
        ensures carries { IfOk result (λ carried. Carries bytes.now carried (route self.now outside.old)
            (route self.now outside.new)) }
        ensures broken { result ≡ Err IoFault.Failed → Breaks bytes.now (route self.now outside.old)
            (route self.now outside.new) }
        ensures starved { result ≡ Err IoFault.NoMemory → Starves bytes.now (route self.now outside.old)
            (route self.now outside.new) }
        ensures caused { IsCaused (result ≡ Err IoFault.Failed) (faults outside.old) (faults outside.new)
            (never_fails outside.old) (never_fails outside.new) };
}

/// Copies go by mail: nothing outside of the play is used, and nothing fails.
#[derive(Clone, Copy)]
pub struct Mail;

impl Carrier<()> for Mail {
    ghost use Rattle.std.specs.Prelude.{⊤};
    ghost use Rattle.hn_play.specs.Stage.{Mail as ByMail};

    ghost route = { λ _ _. ByMail };

    ghost faults = { λ _. 0 };

    ghost never_fails = { λ _. ⊤ };

    fn carry(
        &self,
        _alloc: Global,
        _outside: &mut (),
        _room: &mut Room,
        _bytes: &[u8],
    ) -> Result<Carried, IoFault> {
        Ok(Carried::Same)
    }
}

/// Copies go over a wire, from a base, which is a port of at most 65,534, to the port after it. Contracts see the base.
#[derive(Clone, Copy)]
pub struct OverWire {
    base: u16,
}

impl Model for OverWire {
    ghost use Rattle.std.specs.Prelude.{ℕ, ◌≤◌};

    ghost Value = { ℕ };

    ghost view = { λ p. p.base };

    ghost invariant = { λ p. p.base ≤ 65534 };

    ghost inverse = { λ base. record { base = base } };
}

impl OverWire {
    /// From this base. Never allocates.
    pub fn new(base: u16) -> OverWire
        requires { base ≤ 65534 }
        ensures { result ≡ base }
    {
        OverWire { base }
    }

    /// The base. Never allocates.
    fn base(&self) -> u16
        ensures base { result ≡ self.now }
        ensures in_range { result ≤ 65534 }
    {
        self.base
    }
}

impl<W: Wire> Carrier<W> for OverWire {
    ghost route = { λ base wire. FromBase base (W.waiting wire) };

    ghost faults = { W.faults };

    ghost never_fails = { W.never_fails };

    fn carry(
        &self,
        alloc: Global,
        outside: &mut W,
        room: &mut Room,
        bytes: &[u8],
    ) -> Result<Carried, IoFault> {
        if room.make(alloc).is_err() {
            return Err(IoFault::NoMemory);
        }
        over(alloc, outside, self.base(), &mut room.bytes, bytes)
    }
}

/// Sends the bytes from a base to the port after it, and takes one datagram there, by way of the buffer.
///
/// # Errors
///
/// The wire failed, or memory ended.
fn over<W: Wire>(
    alloc: Global,
    wire: &mut W,
    base: u16,
    buffer: &mut [u8],
    bytes: &[u8],
) -> Result<Carried, IoFault>
    requires base { base ≤ 65534 }
    requires room { length buffer.old ≡ 65536 }
    requires short { length bytes.now ≤ 65507 }
    ensures carries { IfOk result (λ carried. Carries bytes.now carried (FromBase base (W.waiting wire.old))
        (FromBase base (W.waiting wire.new))) }
    ensures broken { result ≡ Err IoFault.Failed → Breaks bytes.now (FromBase base (W.waiting wire.old))
        (FromBase base (W.waiting wire.new)) }
    ensures starved { result ≡ Err IoFault.NoMemory → Starves bytes.now (FromBase base (W.waiting wire.old))
        (FromBase base (W.waiting wire.new)) }
    ensures caused { IsCaused (result ≡ Err IoFault.Failed) (W.faults wire.old) (W.faults wire.new)
        (W.never_fails wire.old) (W.never_fails wire.new) }
{
    wire.send(base, base + 1, bytes)?;
    let Some((count, _from)) = wire.take(base + 1, buffer)? else {
        return Ok(Carried::Lost);
    };
    let got = &buffer[..count];
    if got == bytes {
        return Ok(Carried::Same);
    }
    match Bytes::copy_of(alloc, got) {
        Ok(others) => Ok(Carried::Other(others)),
        Err(_) => Err(IoFault::NoMemory),
    }
}
