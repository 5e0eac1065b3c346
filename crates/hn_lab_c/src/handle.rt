ghost use Rattle.std.specs.Prelude.{◌≡◌, Option, Some, None, is_some, option_map};
ghost use Rattle.hn_slot.specs.Held.{held_by, heap_owns};
ghost use Rattle.hn_lab.specs.Open.{Opened};
ghost use Rattle.hn_lab.specs.contracts.open.OpenPlay.{the_row};

use hn_lab::OpenPlay;
use hn_slot::Slot;
use std::alloc::Global;
use std::marker::Model;
use std::mem::replace;

/// Where a play is, which C keeps: null, or a play on the heap and the right to free it. C sees no struct with a type
/// parameter, so it is a slot by another name.
///
/// A handle that is dropped frees nothing: a play that it has stays on the heap, and nobody may free it any more. So take the
/// play first (`take`), and drop that.
#[repr(C)]
#[derive(Drop)]
pub struct Handle {
    at: *mut u8,
    pub ghost held: { Option Opened },
}

impl Model for Handle {
    ghost also_owns = { λ h. held_by (heap_owns the_row) h.at h.held };
}

impl Handle {
    fn of_slot(slot: Slot<OpenPlay>) -> Handle
        ensures { result.held ≡ slot.held }
    {
        let Slot { at } = slot;
        Handle { at: at as *mut u8 }
    }

    fn into_slot(self) -> Slot<OpenPlay>
        ensures { result.held ≡ self.held }
    {
        let Handle { at } = self;
        Slot {
            at: at as *mut OpenPlay,
        }
    }

    fn none() -> Handle
        ensures { result.held ≡ None }
    {
        Handle::of_slot(Slot::none())
    }

    /// Of a play, which stays where it is.
    pub(crate) fn of(play: Box<OpenPlay>) -> Handle
        ensures { result.held ≡ Some play.value }
    {
        Handle::of_slot(Slot::of(play))
    }

    /// Whether it has a play. Never allocates.
    pub(crate) fn has_play(&mut self) -> bool
        ensures has { result ≡ is_some self.old.held }
        ensures kept { self.new.held ≡ self.old.held }
    {
        let mut slot = replace(self, Handle::none()).into_slot();
        let has = slot.has_value();
        *self = Handle::of_slot(slot);
        has
    }

    /// Takes the play, if there is one, and leaves none.
    pub(crate) fn take(&mut self, alloc: Global) -> Option<Box<OpenPlay>>
        ensures taken { option_map (λ play. play.value) result ≡ self.old.held }
        ensures none { self.new.held ≡ None }
    {
        replace(self, Handle::none()).into_slot().take(alloc)
    }
}
