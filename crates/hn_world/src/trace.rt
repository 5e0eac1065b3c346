ghost use Rattle.std.specs.Prelude.{◌≡◌, ◌^◌, ◌-◌, ◌++◌, ◌∷◌, [], min, length, nat_le};
ghost use Rattle.hn_world.specs.Injected.{injected_by, injected_of};

use crate::copies::MOST_BYTES;
use crate::event::{Traced, WEvent};
use hn_base::Past;
use std::marker::Model;

/// The most events.
const MOST_EVENTS: u64 = 1_000_000;

/// The events that a world accepted, in order, with the words that each took. This list exists in proofs alone. At run
/// time there is how many events there were, and how many bytes were injected, up to 2^28.
#[derive(Drop)]
pub struct Trace {
    past: Past<Traced>,
    count: u64,
    injected: u64,
}

impl Model for Trace {
    ghost use Rattle.std.specs.Prelude.{List};
    ghost use Rattle.hn_world.specs.declared.event.Traced.{Traced};
    ghost use Rattle.hn_world.specs.Injected.{CountsTrace};

    ghost Value = { List Traced };

    ghost view = { λ t. t.past.items };

    ghost invariant = { λ t. CountsTrace t.past.items t.count t.injected };
}

impl WEvent {
    /// How many bytes were injected. Never allocates.
    fn injected(&self) -> usize
        ensures { result ≡ injected_by self.now }
    {
        match self {
            WEvent::Inject { bytes, .. } => bytes.len(),
            _ => 0,
        }
    }
}

impl Trace {
    /// Nothing happened. Never allocates.
    pub(crate) fn new() -> Trace
        ensures { result ≡ [] }
    {
        Trace {
            past: Past::new(),
            count: 0,
            injected: 0,
        }
    }

    /// Whether there were as many events as there may be. Never allocates.
    pub(crate) fn is_full(&self) -> bool
        ensures { result ≡ nat_le 1000000 (length self.now) }
    {
        self.count >= MOST_EVENTS
    }

    /// How many events there were, up to 2^64 - 1. Never allocates.
    pub(crate) fn count(&self) -> u64
        ensures { result ≡ min (length self.now) (2 ^ 64 - 1) }
    {
        self.count
    }

    /// How many bytes were injected, up to 2^28. Never allocates.
    pub(crate) fn injected(&self) -> u64
        ensures { result ≡ min (injected_of self.now) (2 ^ 28) }
    {
        self.injected
    }

    /// One more event, with the words that it took. Never allocates.
    pub(crate) fn enter(&mut self, traced: &Traced)
        ensures { self.new ≡ self.old ++ traced.now ∷ [] }
    {
        self.past = self.past.and(traced);
        self.count = self.count.saturating_add(1);
        self.injected = self
            .injected
            .saturating_add(traced.event.injected() as u64)
            .min(MOST_BYTES);
    }
}
