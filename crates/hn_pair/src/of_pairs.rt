ghost use Rattle.std.specs.Prelude.{◌≡◌, ◌==◌, [], filter, not, IfOk, OnOk, IfSome};
ghost use Rattle.hn_base.specs.Ascending.{HasAt};
ghost use Rattle.hn_pair.specs.Pair.{IsAscending, Updates, KeepsWished, wish_pair};

use crate::ascending::{find, put, wished};
use crate::assigned::Wish;
use crate::pair::{Pair, Paired};
use hn_base::{EpId, NoMemory};
use std::alloc::Global;
use std::marker::Model;

/// What a router holds of its pairs, strictly ascending by delegated prefix and endpoint. Contracts see the list.
#[derive(Drop)]
pub struct OfPairs<T: Paired> {
    pub(crate) items: Vec<T>,
}

impl<T: Paired> Model for OfPairs<T> {
    ghost use Rattle.std.specs.Prelude.{List};
    ghost use Rattle.hn_pair.specs.Pair.{IsAscending};

    ghost Value = { List T };

    ghost view = { λ a. a.items.items };

    ghost invariant = { λ a. IsAscending T.pair_of a.items.items };
}

impl<T: Paired + Copy> OfPairs<T> {
    /// Nothing. Never allocates.
    pub fn new(alloc: Global) -> OfPairs<T>
        ensures { result ≡ [] }
    {
        OfPairs {
            items: Vec::new(alloc),
        }
    }

    /// The list. Never allocates.
    pub fn as_slice(&self) -> &[T]
        ensures value { result.now ≡ self.now }
        ensures ascending { IsAscending T.pair_of self.now }
    {
        self.items.as_slice()
    }

    /// The same, in new memory.
    ///
    /// # Errors
    ///
    /// Out of memory.
    pub fn copy(&self, alloc: Global) -> Result<OfPairs<T>, NoMemory>
        ensures { IfOk result (λ copy. copy ≡ self.now) }
    {
        Ok(OfPairs {
            items: Vec::from_slice(alloc, self.items.as_slice())?,
        })
    }

    /// What is held of a pair; `None` if and only if nothing is. Never allocates.
    pub fn find(&self, pair: &Pair) -> Option<T>
        ensures { HasAt T.pair_of pair.now result self.now }
    {
        find(self.items.as_slice(), pair)
    }

    /// Takes out what is held of an endpoint. Never allocates.
    pub fn remove(&mut self, at: EpId)
        ensures { self.new ≡ filter (λ x. not ((T.pair_of x).endpoint.0 == at.0)) self.old }
    {
        self.items.retain(|x| x.pair().endpoint != at);
    }

    /// Gives a pair something else in place of what it has, or nothing.
    ///
    /// # Errors
    ///
    /// Out of memory.
    pub fn set(&mut self, pair: &Pair, new: &Option<T>) -> Result<(), NoMemory>
        requires { IfSome new.now (λ x. T.pair_of x ≡ pair.now) }
        ensures { OnOk result (Updates T.pair_of pair.now new.now self.old self.new) }
    {
        put(&mut self.items, pair, *new)
    }

    /// A copy of what is held of wished pairs.
    ///
    /// # Errors
    ///
    /// Out of memory.
    pub fn wished(&self, alloc: Global, wishes: &[Wish]) -> Result<OfPairs<T>, NoMemory>
        requires { IsAscending wish_pair wishes.now }
        ensures { IfOk result (KeepsWished T.pair_of wishes.now self.now) }
    {
        Ok(OfPairs {
            items: wished(alloc, self.items.as_slice(), wishes)?,
        })
    }
}
