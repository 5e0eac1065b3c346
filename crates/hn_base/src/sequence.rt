ghost use Rattle.std.specs.Prelude.{◌≡◌, ◌↔◌, [], ◌∷◌, ◌++◌, length, IsTrue, IfOk, OnOk, OnErr};

use crate::memory::NoMemory;
use std::alloc::Global;
use std::marker::Model;

/// A list that owns its memory; contracts see the list of the values of its elements.
#[derive(Drop)]
pub struct Sequence<T> {
    items: Vec<T>,
}

/// Bytes, such as those of a datagram.
pub type Bytes = Sequence<u8>;

/// Random words, in the order in which they were taken.
pub type Words = Sequence<u32>;

impl<T> Model for Sequence<T> {
    ghost use Rattle.std.specs.Prelude.{List};

    ghost Value = { List T };

    ghost view = { λ s. s.items.items };
}

impl<T> Sequence<T> {
    /// An empty list. Never allocates.
    pub fn new(alloc: Global) -> Sequence<T>
        ensures { result ≡ [] }
    {
        Sequence {
            items: Vec::new(alloc),
        }
    }

    /// The elements. Never allocates.
    pub fn as_slice(&self) -> &[T]
        ensures { result.now ≡ self.now }
    {
        self.items.as_slice()
    }

    /// The elements, one by one. Never allocates.
    pub fn into_vec(self) -> Vec<T>
        ensures { result.items ≡ self }
    {
        self.items
    }

    /// How many there are. Never allocates.
    pub fn len(&self) -> usize
        ensures { result ≡ length self.now }
    {
        self.items.len()
    }

    /// Whether there are none. Never allocates.
    pub fn is_empty(&self) -> bool
        ensures { IsTrue result ↔ (self.now ≡ []) }
    {
        self.items.is_empty()
    }
}

impl<T: Drop> Sequence<T> {
    /// Adds an element at the end.
    ///
    /// # Errors
    ///
    /// Out of memory; the list is as before then.
    pub fn push(&mut self, item: T) -> Result<(), NoMemory>
        ensures ok { OnOk result (self.new ≡ self.old ++ item ∷ []) }
        ensures err { OnErr result (self.new ≡ self.old) }
    {
        self.items.push(item)?;
        Ok(())
    }
}

impl<T: Copy> Sequence<T> {
    /// The same elements, in new memory.
    ///
    /// # Errors
    ///
    /// Out of memory.
    pub fn copy(&self, alloc: Global) -> Result<Sequence<T>, NoMemory>
        ensures { IfOk result (λ copy. copy ≡ self.now) }
    {
        Ok(Sequence {
            items: Vec::from_slice(alloc, self.items.as_slice())?,
        })
    }

    /// These elements, in new memory.
    ///
    /// # Errors
    ///
    /// Out of memory.
    pub fn copy_of(alloc: Global, items: &[T]) -> Result<Sequence<T>, NoMemory>
        ensures { IfOk result (λ copy. copy ≡ items.now) }
    {
        Ok(Sequence {
            items: Vec::from_slice(alloc, items)?,
        })
    }
}

/// The elements of a vector, as they are.
impl<T> From<Vec<T>> for Sequence<T> {
    ghost from_gives = { λ vector sequence. sequence ≡ vector.items };

    fn from(items: Vec<T>) -> Sequence<T> {
        Sequence { items }
    }
}
