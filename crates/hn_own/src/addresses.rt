//! A router's own addresses (RFC 7788, section 10.4).

ghost use Rattle.std.specs.Prelude.{◌≡◌, [], IfOk};
ghost use Rattle.std.specs.List.{list_all};
ghost use Rattle.std.specs.Ordering.{is_lt};
ghost use Rattle.hn_own.specs.Addresses.{AreAddresses, address_cmp, ascends, may_address, addresses_without};
ghost use Rattle.hn_own.specs.Ports.{is_attached};

use crate::ports::Ports;
use hn_base::{EpId, Exact, NoMemory, Sequence};
use std::alloc::{AllocError, Global};
use std::marker::Model;

/// The most addresses of a router's own.
const MOST_ADDRESSES: usize = 64;

/// The addresses of a router's own, each with its endpoint, in strictly ascending order, at most 64. Contracts see the
/// list.
#[derive(Drop)]
pub struct Addresses {
    items: Vec<(EpId, u128)>,
}

impl Model for Addresses {
    ghost use Rattle.std.specs.Prelude.{List};
    ghost use Rattle.hn_own.specs.Addresses.{OwnAddress, AreAddresses};

    ghost Value = { List OwnAddress };

    ghost view = { λ a. a.items.items };

    ghost invariant = { λ a. AreAddresses a.items.items };
}

impl Clone for Addresses {
    ghost is_clone = { λ addresses copy. copy ≡ addresses };

    /// # Errors
    ///
    /// Out of memory, as `AllocError`.
    fn clone(&self) -> Result<Addresses, AllocError> {
        Ok(Addresses {
            items: self.items.clone()?,
        })
    }
}

impl Exact for Addresses {
    ghost exact = { λ addresses copy same. same };
}

/// Whether one own address comes before another.
fn is_before(a: &(EpId, u128), b: &(EpId, u128)) -> bool
    ensures { result ≡ is_lt (address_cmp a.now b.now) }
{
    a < b
}

/// Whether each own address comes before the next.
fn ascends(list: &[(EpId, u128)]) -> bool
    ensures { result ≡ ascends list.now }
{
    list.is_sorted_by(|a, b| is_before(a, b))
}

impl Ports {
    /// Whether each own address is of an attached endpoint.
    fn have_all(&self, list: &[(EpId, u128)]) -> bool
        ensures { result ≡ list_all (λ a. is_attached a.0 self.now) list.now }
    {
        list.iter().all(|a| self.has(a.0))
    }

    /// Whether a list may be the own addresses: strictly ascending, at most 64, each of an attached endpoint. Never
    /// allocates.
    pub fn may_address(&self, list: &[(EpId, u128)]) -> bool
        ensures { result ≡ may_address list.now self.now }
    {
        ascends(list) && list.len() <= MOST_ADDRESSES && self.have_all(list)
    }
}

impl Addresses {
    /// No addresses. Never allocates.
    pub fn new(alloc: Global) -> Addresses
        ensures { result ≡ [] }
    {
        Addresses {
            items: Vec::new(alloc),
        }
    }

    /// These addresses, which are in strictly ascending order and at most 64.
    ///
    /// # Errors
    ///
    /// Out of memory.
    pub fn of(alloc: Global, list: &[(EpId, u128)]) -> Result<Addresses, NoMemory>
        requires { AreAddresses list.now }
        ensures { IfOk result (λ addresses. addresses ≡ list.now) }
    {
        Ok(Addresses {
            items: Vec::from_slice(alloc, list)?,
        })
    }

    /// The addresses in order. Never allocates.
    pub fn as_slice(&self) -> &[(EpId, u128)]
        ensures addresses { result.now ≡ self.now }
        ensures kept { AreAddresses self.now }
    {
        self.items.as_slice()
    }

    /// The addresses in order, in new memory.
    ///
    /// # Errors
    ///
    /// Out of memory.
    pub fn copy(&self, alloc: Global) -> Result<Sequence<(EpId, u128)>, NoMemory>
        ensures addresses { IfOk result (λ copy. copy ≡ self.now) }
        ensures kept { AreAddresses self.now }
    {
        Sequence::copy_of(alloc, self.items.as_slice())
    }

    /// Takes out the addresses of an endpoint. Never allocates.
    pub fn remove(&mut self, at: EpId)
        ensures { self.new ≡ addresses_without at self.old }
    {
        self.items.retain(|a| a.0 != at);
    }
}
