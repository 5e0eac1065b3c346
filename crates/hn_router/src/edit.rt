//! The edit of an event: what it changes before a refresh.

ghost use Rattle.std.specs.Prelude.{◌≡◌, false, OnOk};
ghost use Rattle.hn_router.specs.Act.{plain_event, is_refused, IsEdit};
ghost use Rattle.hn_rules.specs.Rules.{Ran};

use crate::event::Event;
use hn_base::NoMemory;
use hn_io::Draw;
use hn_rules::Running;
use std::alloc::Global;

/// The edit of an event that is not refused. An arrival and a tick have none.
pub(crate) fn edit<D: Draw>(
    alloc: Global,
    running: &mut Running,
    event: &Event<'_>,
    draw: &mut D,
) -> Result<(), NoMemory>
    requires { is_refused (plain_event event.now) running.old.state ≡ false }
    ensures { OnOk result (Ran (IsEdit (plain_event event.now)) (D.words draw.old) (D.words draw.new) running.old running.new) }
{
    match *event {
        Event::Arrive { .. } | Event::Tick => Ok(()),
        Event::Attach { endpoint } => running.add_port(alloc, endpoint, draw),
        Event::Detach { endpoint } => running.remove_port(endpoint),
        Event::External {
            prefix,
            valid,
            preferred,
        } => running.put_prefix(prefix, valid, preferred),
        Event::Withdraw { prefix } => running.remove_prefix(&prefix),
        Event::Caps { caps } => {
            running.put_caps(caps);
            Ok(())
        }
        Event::Private { length } => running.put_private(alloc, length),
        Event::Addresses { list } => running.put_addresses(alloc, list),
        Event::Restart => running.restart(alloc, draw),
    }
}
