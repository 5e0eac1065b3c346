//! The trace as it is kept for reading.

ghost use Rattle.std.specs.Prelude.{◌≡◌, ◌<◌, ◌++◌, ◌∷◌, [], false, List, IfSome, IsSome, OnOk, vec_len, vec_capacity};
ghost use Rattle.hn_world.specs.declared.event.Traced.{Traced as AnEntry};
ghost use Rattle.hn_world.specs.SeenWorld.{KeepsTrace};

use crate::event::Traced;
use hn_base::NoMemory;
use std::alloc::Global;

/// What a world keeps of its trace for reading.
#[derive(Drop)]
pub struct KeptTrace {
    /// The events that were accepted, in order, or nothing.
    pub items: Option<Vec<Traced>>,
    /// Whether they have to be kept: where there is no memory for one more, that event does not happen. If not, nothing is
    /// kept from there on.
    pub always: bool,
}

impl KeptTrace {
    /// Of a world in which nothing happened so far. Never allocates.
    pub(crate) fn new(alloc: Global, always: bool) -> KeptTrace
        ensures always { result.always ≡ always }
        ensures kept { KeepsTrace result [] }
    {
        KeptTrace {
            items: Some(Vec::new(alloc)),
            always,
        }
    }

    /// Of a world of which nothing is kept. Never allocates.
    pub(crate) fn none() -> KeptTrace
        ensures always { result.always ≡ false }
        ensures kept { (trace : List AnEntry) → KeepsTrace result trace }
    {
        KeptTrace {
            items: None,
            always: false,
        }
    }

    /// Makes room for one more event, or keeps nothing from here on.
    ///
    /// # Errors
    ///
    /// Out of memory, where events have to be kept.
    pub(crate) fn make_room(&mut self) -> Result<(), NoMemory>
        ensures always { self.new.always ≡ self.old.always }
        ensures kept { (trace : List AnEntry) → KeepsTrace self.old trace → KeepsTrace self.new trace }
        ensures fits { OnOk result (IfSome self.new.items (λ items. vec_len items < vec_capacity items)) }
    {
        let Some(items) = &mut self.items else {
            return Ok(());
        };
        if items.reserve(1).is_ok() {
            return Ok(());
        }
        if self.always {
            return Err(NoMemory);
        }
        self.items = None;
        Ok(())
    }

    /// Adds an event, where events are kept. Never allocates.
    pub(crate) fn push(&mut self, traced: Traced)
        requires { IfSome self.old.items (λ items. vec_len items < vec_capacity items) }
        ensures always { self.new.always ≡ self.old.always }
        ensures kept { (trace : List AnEntry) → KeepsTrace self.old trace → KeepsTrace self.new (trace ++ traced ∷ []) }
    {
        if let Some(items) = &mut self.items {
            items.push_reserved(traced);
        }
    }
}
