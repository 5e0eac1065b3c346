use hn_base::Bytes;

/// The most bytes of a datagram over UDP and IPv4 (RFC 768; RFC 791, section 3.1).
pub const MOST_WIRE_BYTES: usize = 65_507;

/// A datagram that waits: the ports that it came from and goes to, and its bytes.
#[derive(Drop)]
pub struct Datagram {
    pub from: u16,
    pub to: u16,
    pub bytes: Bytes,
}
