ghost use Rattle.std.specs.Prelude.{◌≤◌};

/// The four capabilities of an HNCP-Version TLV (RFC 7788, section 10.1). Each is the node's priority for that service,
/// a number of 4 bits; it is 0 if the node does not offer the service.
#[derive(Clone, Copy, PartialEq, Eq)]
pub struct Caps {
    /// M: mDNS proxy.
    pub m: u8,
    /// P: prefix delegation by DHCPv6.
    pub p: u8,
    /// H: host addresses by DHCPv6.
    pub h: u8,
    /// L: legacy (IPv4) addresses by DHCPv4.
    pub l: u8,
    pub ghost m_in_range: { m ≤ 15 },
    pub ghost p_in_range: { p ≤ 15 },
    pub ghost h_in_range: { h ≤ 15 },
    pub ghost l_in_range: { l ≤ 15 },
}
