ghost use Rattle.std.specs.Prelude.{◌≡◌, IfOk};

use hn_base::NoMemory;
use hn_world::WEvent;
use std::alloc::Global;

/// The same event, in new memory.
pub(crate) fn copied(alloc: Global, event: &WEvent) -> Result<WEvent, NoMemory>
    ensures { IfOk result (λ copy. copy ≡ event.now) }
{
    Ok(match event {
        WEvent::Router { name, id } => WEvent::Router {
            name: *name,
            id: *id,
        },
        WEvent::Link { name } => WEvent::Link { name: *name },
        WEvent::Attach {
            name,
            endpoint,
            link,
        } => WEvent::Attach {
            name: *name,
            endpoint: *endpoint,
            link: *link,
        },
        WEvent::Detach { name, endpoint } => WEvent::Detach {
            name: *name,
            endpoint: *endpoint,
        },
        WEvent::External {
            name,
            prefix,
            valid,
            preferred,
        } => WEvent::External {
            name: *name,
            prefix: *prefix,
            valid: *valid,
            preferred: *preferred,
        },
        WEvent::Withdraw { name, prefix } => WEvent::Withdraw {
            name: *name,
            prefix: *prefix,
        },
        WEvent::Caps { name, caps } => WEvent::Caps {
            name: *name,
            caps: *caps,
        },
        WEvent::Private { name, length } => WEvent::Private {
            name: *name,
            length: *length,
        },
        WEvent::Addresses { name, list } => WEvent::Addresses {
            name: *name,
            list: list.copy(alloc)?,
        },
        WEvent::Stop { name } => WEvent::Stop { name: *name },
        WEvent::Start { name } => WEvent::Start { name: *name },
        WEvent::Time { moment } => WEvent::Time { moment: *moment },
        WEvent::Tick { name } => WEvent::Tick { name: *name },
        WEvent::Deliver { copy } => WEvent::Deliver { copy: *copy },
        WEvent::Drop { copy } => WEvent::Drop { copy: *copy },
        WEvent::Inject {
            name,
            endpoint,
            from,
            multicast,
            bytes,
        } => WEvent::Inject {
            name: *name,
            endpoint: *endpoint,
            from: *from,
            multicast: *multicast,
            bytes: bytes.copy(alloc)?,
        },
    })
}
