ghost use Rattle.std.specs.Prelude.{◌≡◌, IfOk};
ghost use Rattle.std.specs.Borrow.{sem};
ghost use Rattle.hn_base.specs.Shared.{lends_shared};

use crate::memory::NoMemory;
use std::alloc::{AllocError, Global};
use std::marker::Model;
use std::rc::Rc;

/// A value whose clone is equal to it.
pub trait Exact: Clone {
    ghost exact: { (x y : Self) → Self.is_clone x y → y ≡ x };
}

/// A value with several owners; contracts see the value. A clone shares its memory.
#[derive(Drop)]
pub struct Shared<T> {
    inner: Rc<T, Global>,
}

impl<T> Model for Shared<T> {
    ghost use Rattle.std.specs.Prelude.{◌≡◌};

    ghost Value = { T };

    ghost coded = { T.code };

    ghost view = { λ s. s.inner.value };
}

impl<T: Drop> Clone for Shared<T> {
    ghost is_clone = { λ s copy. copy ≡ s };

    /// One more owner of the value.
    ///
    /// # Errors
    ///
    /// Out of memory, as `AllocError`.
    fn clone(&self) -> Result<Shared<T>, AllocError> {
        Ok(Shared {
            inner: self.inner.clone()?,
        })
    }
}

impl<T: Drop> Shared<T> {
    /// The value, with one owner.
    ///
    /// # Errors
    ///
    /// Out of memory.
    pub fn new(alloc: Global, value: T) -> Result<Shared<T>, NoMemory>
        ensures { IfOk result (λ s. s ≡ value) }
    {
        Ok(Shared {
            inner: Rc::new(alloc, value)?,
        })
    }

    /// The value. Never allocates.
    pub fn get(&self) -> &T
        ensures { result.now ≡ self.now }
    {
        Rc::as_ref(&self.inner)
    }
}

impl<T: Exact> Shared<T> {
    /// The value, to change it: where it has other owners, a clone of it first.
    ///
    /// # Errors
    ///
    /// Out of memory; the value is as before then.
    pub fn edit(&mut self) -> Result<&mut T, NoMemory>
        ensures* writes_back { sem 𝓛 (lends_shared T.row self.entry result) }
        ensures value { IfOk result (λ x. x.now ≡ self.old) }
    {
        Ok(Rc::make_mut(&mut self.inner)?)
    }
}
