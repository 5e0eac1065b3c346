//! What a router holds for its pairs of a delegated prefix and an endpoint (RFC 7695, section 4.1).

ghost use Rattle.std.specs.Prelude.{◌≡◌, ◌≤◌, length, All, IfOk};
ghost use Rattle.hn_own.specs.HeldPairs.{AreHeldPairs, no_pairs, publication_of, published_in, without_private};

use crate::posts::PRIVATE_POST;
use hn_base::{NoMemory, Sequence, Shared};
use hn_data::AssignedPrefix;
use hn_pair::{Assigned, Held};
use std::alloc::Global;
use std::marker::Model;

/// The assignments and backoffs of a router: at most 544 assignments, each inside its delegated prefix, and with
/// priority 2 where it is published. Contracts see the lists.
#[derive(Drop)]
pub struct HeldPairs<I> {
    held: Held,
    /// The index of the advertised prefixes with which they were made last, if one is kept. No rule here reads it.
    index: Option<Shared<I>>,
}

impl<I> Model for HeldPairs<I> {
    ghost use Rattle.hn_pair.specs.declared.held.Held.{Held};
    ghost use Rattle.hn_own.specs.HeldPairs.{AreHeldPairs};

    ghost Value = { Held };

    ghost view = { λ h. h.held };

    ghost invariant = { λ h. AreHeldPairs h.held };
}

/// What a router publishes of an assignment, if it publishes it.
fn published_of(c: &Assigned) -> Option<AssignedPrefix>
    ensures { result ≡ publication_of c.now }
{
    let priority = c.published?;
    Some(AssignedPrefix {
        endpoint: c.endpoint,
        priority,
        prefix: c.prefix,
    })
}

impl<I: Drop> HeldPairs<I> {
    /// Nothing. Never allocates.
    pub fn new(alloc: Global) -> HeldPairs<I>
        ensures { result ≡ no_pairs }
    {
        HeldPairs {
            held: Held::new(alloc),
            index: None,
        }
    }

    /// These assignments and backoffs. Never allocates.
    pub fn of(held: Held) -> HeldPairs<I>
        requires { AreHeldPairs held }
        ensures { result ≡ held }
    {
        HeldPairs { held, index: None }
    }

    /// These assignments and backoffs, with the index with which they were made; where there is none, with the one that is
    /// kept.
    ///
    /// # Errors
    ///
    /// Out of memory.
    pub fn then(&self, held: Held, index: Option<Shared<I>>) -> Result<HeldPairs<I>, NoMemory>
        requires { AreHeldPairs held }
        ensures { IfOk result (λ next. next ≡ held) }
    {
        let index = match index {
            Some(index) => Some(index),
            None => self.index.clone()?,
        };
        Ok(HeldPairs { held, index })
    }

    /// The index that is kept, if one is. Never allocates.
    pub fn index(&self) -> &Option<Shared<I>> {
        &self.index
    }

    /// The assignments and backoffs. Never allocates.
    pub fn get(&self) -> &Held
        ensures held { result.now ≡ self.now }
        ensures kept { AreHeldPairs self.now }
    {
        &self.held
    }

    /// What is held for other posts than endpoint 0, that of a private link, in new memory.
    ///
    /// # Errors
    ///
    /// Out of memory.
    pub fn without_private(&self, alloc: Global) -> Result<HeldPairs<I>, NoMemory>
        ensures { IfOk result (λ held. held ≡ without_private self.now) }
    {
        let mut held = self.held.copy(alloc)?;
        held.assigned.remove(PRIVATE_POST);
        held.backoffs.remove(PRIVATE_POST);
        Ok(HeldPairs { held, index: None })
    }

    /// What the router publishes of the assignments: at most 544, each with priority 2.
    ///
    /// # Errors
    ///
    /// Out of memory.
    pub fn published(&self, alloc: Global) -> Result<Sequence<AssignedPrefix>, NoMemory>
        ensures published { IfOk result (λ published. published ≡ published_in self.now.assigned) }
        ensures few { IfOk result (λ published. length published ≤ 544) }
        ensures priority { IfOk result (All (λ a. a.priority ≡ 2)) }
    {
        let mut published = Sequence::new(alloc);
        for c in self.held.assigned.as_slice() {
            if let Some(a) = published_of(c) {
                published.push(a)?;
            }
        }
        Ok(published)
    }
}
