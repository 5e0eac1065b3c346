ghost use Rattle.std.specs.Prelude.{◌≡◌, ◌+◌, ◌≤◌, ◌++◌, List, ℕ, [], length, take};
ghost use Rattle.hn_base.specs.Prefix.{IsPrefix};
ghost use Rattle.hn_typed.specs.Fields.{word, prefix_field, IsHash};

use crate::prefix::bytes_for;
use hn_prefix::Prefix;
use std::marker::Model;

/// How long a fixed part can be: that of a delegated prefix has two numbers, a prefix length and 16 prefix bytes.
const LONGEST: usize = 25;

/// The fixed part of a value that is written; contracts see the list of its bytes.
#[derive(Drop)]
pub(crate) struct FixedPart {
    bytes: [u8; LONGEST],
    len: usize,
}

impl Model for FixedPart {
    ghost Value = { List ℕ };

    ghost view = { λ f. take f.len f.bytes };

    ghost invariant = { λ f. f.len ≤ 25 };
}

impl FixedPart {
    /// No bytes.
    #[inline(always)]
    pub(crate) fn new() -> FixedPart
        ensures { result ≡ [] }
    {
        FixedPart {
            bytes: [0; LONGEST],
            len: 0,
        }
    }

    /// How many bytes there are.
    #[inline(always)]
    pub(crate) fn len(&self) -> usize
        ensures exact { result ≡ length self.now }
        ensures small { result ≤ 25 }
    {
        self.len
    }

    /// The bytes.
    #[inline(always)]
    pub(crate) fn as_slice(&self) -> &[u8]
        ensures { result.now ≡ self.now }
    {
        &self.bytes[..self.len]
    }

    /// These bytes at the end.
    #[inline(always)]
    pub(crate) fn then(mut self, more: &[u8]) -> FixedPart
        requires { length self + length more.now ≤ 25 }
        ensures { result ≡ self ++ more.now }
    {
        let start = self.len;
        let end = start + more.len();
        self.bytes[start..end].copy_from_slice(more);
        self.len = end;
        self
    }

    /// A number of 4 bytes at the end.
    #[inline(always)]
    pub(crate) fn word(self, number: u32) -> FixedPart
        requires { length self + 4 ≤ 25 }
        ensures { result ≡ self ++ word number }
    {
        self.then(&number.to_be_bytes())
    }

    /// A hash at the end.
    #[inline(always)]
    pub(crate) fn hash(self, hash: &[u8; 8]) -> FixedPart
        requires { length self + 8 ≤ 25 }
        ensures exact { result ≡ self ++ hash.now }
        ensures valid { IsHash hash.now }
    {
        self.then(hash)
    }

    /// A prefix length and its prefix bytes at the end.
    #[inline(always)]
    pub(crate) fn prefix(self, prefix: &Prefix) -> FixedPart
        requires { length self + 17 ≤ 25 }
        ensures exact { result ≡ self ++ prefix_field prefix.now }
        ensures valid { IsPrefix prefix.now }
    {
        let len = prefix.len();
        let bytes = prefix.bits().to_be_bytes();
        self.then(&[len]).then(&bytes[..bytes_for(len)])
    }
}
