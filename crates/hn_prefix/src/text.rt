//! IPv6 addresses and prefixes as text (RFC 5952).

ghost use Rattle.std.specs.Prelude.{◌≡◌, ℕ, ◌^◌, ◌<◌, ◌≤◌, List, length, Some};
ghost use Rattle.hn_prefix.specs.AddressText.{groups, address_text_of, IsWrittenForm};

use crate::prefix::Prefix;
use std::fmt;
use std::marker::Model;
use std::net::Ipv6Addr;

/// The text of an IPv6 address or prefix, which is written where it is printed. Contracts see the list of its bytes.
#[derive(Drop)]
pub struct PrefixText {
    address: u128,
    len: Option<u8>,
}

impl Model for PrefixText {
    ghost use Rattle.std.specs.Prelude.{ℕ, List};
    ghost use Rattle.hn_prefix.specs.PrefixText.{text_of};

    ghost Value = { List ℕ };

    ghost view = { λ text. text_of text.address text.len };
}

/// Writes the text.
impl fmt::Display for PrefixText {
    ghost output = { λ text. Some text };

    fn fmt<W: fmt::Write>(&self, f: &mut fmt::Formatter<W>) -> fmt::Result {
        let address = Ipv6Addr::from_bits(self.address).hex_groups();
        match self.len {
            Some(len) => write!(f, "{address}/{len}"),
            None => write!(f, "{address}"),
        }
    }
}

/// The text of an address as RFC 5952, section 4, writes it: groups in lower-case hexadecimal digits with no leading
/// zeros, and `::` in the place of the first longest run of two or more zero groups. Never allocates.
pub fn address_text(ip: u128) -> PrefixText
    ensures written { IsWrittenForm result (groups ip) }
    ensures exact { result ≡ address_text_of ip }
    ensures short { length result ≤ 39 }
{
    PrefixText {
        address: ip,
        len: None,
    }
}

impl Prefix {
    ghost use Rattle.hn_prefix.specs.PrefixText.{prefix_text_of};

    /// The text of the prefix: its address as `address_text` writes it, `/`, and the length in decimal digits.
    /// Never allocates.
    pub fn text(&self) -> PrefixText
        ensures { result ≡ prefix_text_of self.now }
    {
        PrefixText {
            address: self.bits(),
            len: Some(self.len()),
        }
    }
}
