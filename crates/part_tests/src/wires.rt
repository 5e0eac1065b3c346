//! What a wire does, as plain values.

use hn_io::IoFault;
use hn_wire::Wire;

/// What came of a take: its answer, and the first two bytes of the buffer, which were 9 before.
pub type Taken = (Result<Option<(usize, u16)>, IoFault>, [u8; 2]);

/// What is taken at a port.
pub fn taken<W: Wire>(wire: &mut W, port: u16) -> Taken {
    let mut buf = [9; 65_536];
    let answer = wire.take(port, &mut buf);
    (answer, [buf[0], buf[1]])
}

/// What comes of sending one byte.
pub fn sent<W: Wire>(wire: &mut W, from: u16, to: u16, byte: u8) -> Result<(), IoFault> {
    wire.send(from, to, &[byte])
}

/// What comes of sending two bytes, of which the second is one greater.
pub fn sent_two<W: Wire>(wire: &mut W, from: u16, to: u16, byte: u8) -> Result<(), IoFault> {
    wire.send(from, to, &[byte, byte.saturating_add(1)])
}
