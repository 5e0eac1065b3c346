/// One of the four capabilities of a node (RFC 7788, section 10.1).
#[derive(Clone, Copy)]
pub enum Letter {
    /// The mDNS proxy.
    M,
    /// Prefix delegation by DHCPv6.
    P,
    /// Addresses by DHCPv6.
    H,
    /// DHCPv4.
    L,
}
