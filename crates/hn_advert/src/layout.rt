//! The numbers of the format (RFC 4861, sections 4.2 and 4.6.2).

/// The type of a Router Advertisement.
pub(crate) const ADVERTISEMENT: u8 = 134;

/// How many bytes stand before the options.
pub(crate) const HEADER_SIZE: usize = 16;

/// The flag M: addresses are available by DHCPv6.
pub(crate) const MANAGED: u8 = 0x80;

/// The flag O: other configuration is available by DHCPv6.
pub(crate) const OTHER: u8 = 0x40;

/// The unit of an option's length, in bytes.
pub(crate) const UNIT: usize = 8;

/// The type of a Prefix Information option.
pub(crate) const PREFIX_INFORMATION: u8 = 3;

/// The length of a Prefix Information option, in units.
pub(crate) const PREFIX_INFORMATION_UNITS: u8 = 4;
