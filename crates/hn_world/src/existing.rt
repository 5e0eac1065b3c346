//! An event that a world accepts has a result, by the types of what it is made of.

ghost use Rattle.std.specs.Prelude.{◌≡◌, None, All};
ghost use Rattle.hn_base.specs.Byte.{IsByte};
ghost use Rattle.hn_world.specs.Existing.{IsOfBytesAt, IsCopyOfBytes, IsMailOfBytes, HasAStep};
ghost use Rattle.hn_world.specs.Refusal.{refusal};
ghost use Rattle.hn_world.specs.Replay.{IsSoundWorld};
ghost use Rattle.hn_world.specs.Routed.{routed};
ghost use Rattle.hn_world.specs.Step.{FitsAt, IsWorldEventInRange};

use crate::event::WEvent;
use crate::laws::step_exists;
use crate::parts::Parts;
use hn_router::{event_in_range, event_of_bytes};

/// A datagram is of bytes. Does nothing: call it to know its law.
fn bytes_in_range(bytes: &[u8])
    ensures { All IsByte bytes.now }
{
    let _none = bytes.is_empty();
}

/// What an event gives its router fits, and what arrives is of bytes. Changes nothing: call it to know its law.
fn given_in_range(event: &WEvent)
    ensures fits { FitsAt (routed event.now) }
    ensures injected { IsOfBytesAt (routed event.now) }
{
    if let Some((_, own)) = event.routed() {
        event_in_range(&own);
        event_of_bytes(&own);
    }
}

/// So it is of each event. Most events give nothing, and take no time here.
fn own_in_range(event: &WEvent)
    ensures fits { FitsAt (routed event.now) }
    ensures injected { IsOfBytesAt (routed event.now) }
{
    match event {
        WEvent::Attach { .. }
        | WEvent::External { .. }
        | WEvent::Private { .. }
        | WEvent::Addresses { .. }
        | WEvent::Inject { .. } => given_in_range(event),
        _ => {}
    }
}

impl Parts {
    /// A copy is of bytes. Changes nothing: call it to know its law.
    fn copy_in_range(&self, copy: u64)
        ensures { IsCopyOfBytes copy self.now }
    {
        if let Some(mail) = self.copy_at(copy) {
            bytes_in_range(mail.bytes.get().as_slice());
        }
    }

    /// The copy that is delivered is of bytes. Changes nothing: call it to know its law.
    fn mail_in_range(&self, event: &WEvent)
        ensures { IsMailOfBytes event.now self.now }
    {
        if let WEvent::Deliver { copy } = event {
            self.copy_in_range(*copy);
        }
    }

    /// It cannot be that an accepted event has no result. Changes nothing: call it to know its law.
    pub(crate) fn has_a_step(&self, event: &WEvent)
        requires accepted { refusal self.now event.now ≡ None }
        requires in_range { IsWorldEventInRange event.now }
        requires sound { IsSoundWorld self.now }
        ensures { HasAStep event.now self.now }
    {
        step_exists();
        own_in_range(event);
        self.mail_in_range(event);
    }
}
