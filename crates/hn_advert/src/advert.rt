use hn_base::Sequence;
use hn_prefix::Prefix;

/// A prefix that is advertised, with its lifetimes (RFC 4861, section 4.6.2).
#[derive(Clone, Copy, PartialEq, Eq)]
pub struct Info {
    pub prefix: Prefix,
    /// The valid lifetime in seconds; 4294967295 is one that never ends.
    pub valid: u32,
    /// The preferred lifetime in seconds; 4294967295 is one that never ends.
    pub preferred: u32,
}

/// The prefixes that are advertised, in order.
pub type Infos = Sequence<Info>;

/// A Router Advertisement (RFC 4861, section 4.2).
#[derive(Drop)]
pub struct Advert {
    /// The flag M: addresses are available by DHCPv6.
    pub managed: bool,
    /// The flag O: other configuration is available by DHCPv6.
    pub other: bool,
    /// The router lifetime in seconds; 0 if the router is not a default router.
    pub lifetime: u16,
    pub infos: Infos,
}
