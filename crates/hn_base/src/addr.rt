ghost use Rattle.std.specs.Prelude.{◌↔◌, IsTrue};
ghost use Rattle.hn_base.specs.Addr.{IsLinkLocal};

/// Where a datagram comes from or goes to: an IPv6 address and a UDP port.
#[derive(Clone, Copy)]
pub struct Addr {
    /// The address; its first bit is the highest one.
    pub ip: u128,
    pub port: u16,
}

/// Whether the address is a link-local one, of fe80::/10 (RFC 4291, section 2.5.6). Never allocates.
pub fn link_local(addr: &Addr) -> bool
    ensures { IsTrue result ↔ IsLinkLocal addr.now.ip }
{
    addr.ip >> 118 == 0b11_1111_1010
}
