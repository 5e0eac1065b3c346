//! The groups of 16 bits of an IPv6 address (RFC 4291, section 2.2).

ghost use Rattle.std.specs.Prelude.{◌≡◌, ℕ, ◌+◌, ◌<◌, ◌≤◌, List, [], ◌∷◌, ◌++◌, length, take, replicate};
ghost use Rattle.hn_prefix.specs.AddressText.{address_of_groups};

use std::marker::Model;

/// Up to eight groups, the highest first; contracts see their list.
#[derive(Drop)]
pub struct Groups {
    groups: [u16; 8],
    len: usize,
}

impl Model for Groups {
    ghost Value = { List ℕ };

    ghost view = { λ g. take g.len g.groups };

    ghost invariant = { λ g. g.len ≤ 8 };
}

impl Groups {
    /// No groups.
    pub fn new() -> Groups
        ensures { result ≡ [] }
    {
        Groups {
            groups: [0; 8],
            len: 0,
        }
    }

    /// How many groups there are.
    pub fn len(&self) -> usize
        ensures { result ≡ length self.now }
    {
        self.len
    }

    /// Adds a group at the end.
    pub fn push(&mut self, group: u16)
        requires { length self.old < 8 }
        ensures { self.new ≡ self.old ++ group ∷ [] }
    {
        self.groups[self.len] = group;
        self.len += 1;
    }

    /// Adds zero groups at the end.
    pub fn push_zeros(&mut self, count: usize)
        requires { length self.old + count ≤ 8 }
        ensures { self.new ≡ self.old ++ replicate count 0 }
    {
        for _ in 0..count {
            self.push(0);
        }
    }

    /// Adds groups at the end.
    pub fn push_all(&mut self, groups: &[u16])
        requires { length self.old + length groups.now ≤ 8 }
        ensures { self.new ≡ self.old ++ groups.now }
    {
        for group in groups {
            self.push(*group);
        }
    }

    /// The groups.
    pub fn as_slice(&self) -> &[u16]
        ensures { result.now ≡ self.now }
    {
        &self.groups[..self.len]
    }
}

/// The address of some groups: the number that they write in base 65536.
pub fn address(groups: &[u16]) -> u128
    requires { length groups.now ≤ 8 }
    ensures { result ≡ address_of_groups groups.now }
{
    let mut address = 0;
    for group in groups {
        address = address * 0x1_0000 + u128::from(*group);
    }
    address
}
