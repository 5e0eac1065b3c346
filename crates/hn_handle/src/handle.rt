ghost use Rattle.std.specs.Prelude.{◌≡◌, Option, Some, None, IsSome, IfSome, is_some, is_none, option_map};
ghost use denote.RawPtr.{null_ptr};
ghost use Rattle.hn_handle.specs.Held.{held_at};
ghost use Rattle.hn_kept.specs.Kept.{Kept};

use crate::parted::Parted;
use hn_kept::Keeper;
use std::alloc::Global;
use std::marker::Model;
use std::mem::replace;

/// Where a router is, which C keeps: null, or a router on the heap and the right to free it.
///
/// A handle that is dropped frees nothing: a router that it has stays on the heap, and nobody may free it any more. So take
/// the router first (`take`), and drop that.
#[repr(C)]
#[derive(Drop)]
pub struct Handle {
    at: *mut u8,
    pub ghost held: { Option Kept },
}

impl Model for Handle {
    ghost also_owns = { λ h. held_at h.at h.held };
}

// No place.
fn null() -> *mut u8
    ensures { result ≡ null_ptr }
{
    std::ptr::null_mut()
}

impl Handle {
    fn none_at(at: *mut u8) -> Handle
        requires { at ≡ null_ptr }
        ensures { result.held ≡ None }
    {
        Handle { at }
    }

    fn none() -> Handle
        ensures { result.held ≡ None }
    {
        Handle::none_at(null())
    }

    fn wrap(parted: Parted<Keeper, Global>) -> Handle
        ensures { result.held ≡ Some parted.value }
    {
        let Parted { alloc, at } = parted;
        let _alloc = alloc;
        Handle { at: at as *mut u8 }
    }

    fn unwrap(self, alloc: Global) -> Parted<Keeper, Global>
        requires { IsSome self.held }
        ensures { self.held ≡ Some result.value }
    {
        let Handle { at } = self;
        Parted {
            alloc,
            at: at as *mut Keeper,
        }
    }

    // Whether it has no router, and the handle again.
    fn look(self) -> (bool, Handle)
        ensures { (result.1.held ≡ self.held) × (result.0 ≡ is_none self.held) }
    {
        let Handle { at } = self;
        let none = at.is_null();
        (none, Handle { at })
    }

    /// Of a router, which stays where it is.
    pub fn of(keeper: Box<Keeper>) -> Handle
        ensures { result.held ≡ Some keeper.value }
    {
        Handle::wrap(Parted::part(keeper))
    }

    // The router of a handle that has one.
    fn into_box(self, alloc: Global) -> Box<Keeper>
        requires { IsSome self.held }
        ensures { self.held ≡ Some result.value }
    {
        self.unwrap(alloc).join()
    }

    /// Whether it has a router. Never allocates.
    pub fn has_router(&mut self) -> bool
        ensures has { result ≡ is_some self.old.held }
        ensures kept { self.new.held ≡ self.old.held }
    {
        let (none, handle) = replace(self, Handle::none()).look();
        *self = handle;
        !none
    }

    /// Takes the router, if there is one, and leaves none.
    pub fn take(&mut self, alloc: Global) -> Option<Box<Keeper>>
        ensures taken { option_map (λ keeper. keeper.value) result ≡ self.old.held }
        ensures none { self.new.held ≡ None }
    {
        let (none, handle) = replace(self, Handle::none()).look();
        if none {
            None
        } else {
            Some(handle.into_box(alloc))
        }
    }
}
