ghost use Rattle.std.specs.Prelude.{◌≡◌, ◌↔◌, ◌⊎◌, [], true, false, Contains, IfOk, OnErr};
ghost use Rattle.hn_pair.specs.declared.assigned.Wish.{Wish};
ghost use Rattle.hn_pair.specs.Facts.{IsFitting, AreWishes};
ghost use Rattle.hn_pair.specs.Pair.{IsWished, wish_pair};

use crate::ascending::place_at_end;
use crate::assigned::Wish;
use crate::pair::Paired;
use hn_base::NoMemory;
use std::alloc::Global;
use std::marker::Model;

/// What a router asks for its pairs: one wish for each at most, strictly ascending by delegated prefix and endpoint.
/// Each delegated prefix has a length of 64 at most, and each wish asks for prefixes of a length from 1 to 64.
/// Contracts see the list of wishes.
#[derive(Drop)]
pub struct Wishes {
    items: Vec<Wish>,
}

impl Model for Wishes {
    ghost use Rattle.std.specs.Prelude.{List};
    ghost use Rattle.hn_pair.specs.declared.assigned.Wish.{Wish};
    ghost use Rattle.hn_pair.specs.Facts.{AreWishes};

    ghost Value = { List Wish };

    ghost view = { λ w. w.items.items };

    ghost invariant = { λ w. AreWishes w.items.items };
}

impl Wishes {
    /// No wishes. Never allocates.
    pub fn new(alloc: Global) -> Wishes
        ensures { result ≡ [] }
    {
        Wishes {
            items: Vec::new(alloc),
        }
    }

    /// The wishes. Never allocates.
    pub fn as_slice(&self) -> &[Wish]
        ensures value { result.now ≡ self.now }
        ensures wishes { AreWishes self.now }
    {
        self.items.as_slice()
    }

    /// Adds a wish at its place in the order; `false` exactly if the pair has one already, which then stays.
    ///
    /// # Errors
    ///
    /// Out of memory; nothing has changed then.
    pub fn add(&mut self, wish: Wish) -> Result<bool, NoMemory>
        requires { IsFitting wish }
        ensures added { IfOk result (λ added. added ≡ true
            → (w : Wish) → Contains self.new w ↔ (Contains self.old w ⊎ (wish ≡ w))) }
        ensures is_new { IfOk result (λ added. added ≡ true → ¬ (IsWished self.old (wish_pair wish))) }
        ensures known { IfOk result (λ added. added ≡ false → IsWished self.old (wish_pair wish)) }
        ensures unchanged { IfOk result (λ added. added ≡ false → self.new ≡ self.old) }
        ensures err { OnErr result (self.new ≡ self.old) }
    {
        match place_at_end(&self.items, &wish.pair()) {
            Ok(_) => Ok(false),
            Err(place) => {
                self.items.insert(place, wish)?;
                Ok(true)
            }
        }
    }
}
