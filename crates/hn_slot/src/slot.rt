ghost use Rattle.std.specs.Prelude.{◌≡◌, Option, Some, None, IsSome, is_some, is_none, option_map};
ghost use denote.RawPtr.{null_ptr};
ghost use Rattle.hn_slot.specs.Held.{held_by, heap_owns};

use crate::parted::Parted;
use std::alloc::Global;
use std::marker::Model;
use std::mem::replace;

/// Where a value is: null, or a value on the heap and the right to free it.
///
/// A slot that is dropped frees nothing: a value that it has stays on the heap, and nobody may free it any more. So take
/// the value first (`take`), and drop that.
#[derive(Drop)]
pub struct Slot<T> {
    pub at: *mut T,
    pub ghost held: { Option T },
}

impl<T> Model for Slot<T> {
    ghost also_owns = { λ h. held_by (heap_owns T.row) h.at h.held };
}

// No place.
fn null<T>() -> *mut T
    ensures { result ≡ null_ptr }
{
    std::ptr::null_mut()
}

impl<T: Drop> Slot<T> {
    fn none_at(at: *mut T) -> Slot<T>
        requires { at ≡ null_ptr }
        ensures { result.held ≡ None }
    {
        Slot { at }
    }

    /// Without a value. Never allocates.
    pub fn none() -> Slot<T>
        ensures { result.held ≡ None }
    {
        Slot::none_at(null())
    }

    fn wrap(parted: Parted<T, Global>) -> Slot<T>
        ensures { result.held ≡ Some parted.value }
    {
        let Parted { alloc, at } = parted;
        let _alloc = alloc;
        Slot { at }
    }

    fn unwrap(self, alloc: Global) -> Parted<T, Global>
        requires { IsSome self.held }
        ensures { self.held ≡ Some result.value }
    {
        let Slot { at } = self;
        Parted { alloc, at }
    }

    // Whether it has no value, and the slot again.
    fn look(self) -> (bool, Slot<T>)
        ensures { (result.1.held ≡ self.held) × (result.0 ≡ is_none self.held) }
    {
        let Slot { at } = self;
        let none = at.is_null();
        (none, Slot { at })
    }

    /// Of a value, which stays where it is.
    pub fn of(value: Box<T>) -> Slot<T>
        ensures { result.held ≡ Some value.value }
    {
        Slot::wrap(Parted::part(value))
    }

    // The value of a slot that has one.
    fn into_box(self, alloc: Global) -> Box<T>
        requires { IsSome self.held }
        ensures { self.held ≡ Some result.value }
    {
        self.unwrap(alloc).join()
    }

    /// Whether it has a value. Never allocates.
    pub fn has_value(&mut self) -> bool
        ensures has { result ≡ is_some self.old.held }
        ensures kept { self.new.held ≡ self.old.held }
    {
        let (none, slot) = replace(self, Slot::none()).look();
        *self = slot;
        !none
    }

    /// Takes the value, if there is one, and leaves none.
    pub fn take(&mut self, alloc: Global) -> Option<Box<T>>
        ensures taken { option_map (λ held. held.value) result ≡ self.old.held }
        ensures none { self.new.held ≡ None }
    {
        let (none, slot) = replace(self, Slot::none()).look();
        if none {
            None
        } else {
            Some(slot.into_box(alloc))
        }
    }
}
