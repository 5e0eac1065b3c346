//! The events and the reports that lines are.

ghost use Rattle.std.specs.Prelude.{◌≡◌, Err, None, Some, IfOk};
ghost use Rattle.hn_script.specs.Laws.{IsLimited};
ghost use Rattle.hn_script.specs.declared.line.Line.{Line};
ghost use Rattle.hn_world.specs.Step.{IsWorldEventInRange};
ghost use Rattle.hn_lab.specs.Line.{event_of, line_of, report_of, injection, source_of};

use crate::report::{About, Report};
use hn_base::{Addr, Bytes, EpId, Name};
use hn_script::{How, Line};
use hn_world::{HNCP_PORT, WEvent};

/// The source of an injected datagram.
fn source_of(how: How) -> Addr
    ensures { result ≡ source_of how }
{
    let ip = match how {
        How::Uni | How::Multi => 0xfe80 << 112,
        How::Far => (0x2001_0db8 << 96) + 1,
    };
    Addr {
        ip,
        port: HNCP_PORT,
    }
}

/// A datagram that is injected.
pub(crate) fn injection(name: Name, endpoint: EpId, how: How, bytes: Bytes) -> WEvent
    ensures { result ≡ injection name endpoint how bytes }
{
    let multicast = match how {
        How::Uni => false,
        How::Multi | How::Far => true,
    };
    WEvent::Inject {
        name,
        endpoint,
        from: source_of(how),
        multicast,
        bytes,
    }
}

/// The event that a line is, if it is one that writes nothing; else the line.
pub(crate) fn event_of(line: Line) -> Result<WEvent, Line>
    requires limited { IsLimited line }
    ensures in_range { IfOk result IsWorldEventInRange }
    ensures event { IfOk result (λ event. event_of line ≡ Some event) }
    ensures other { (same : Line) → result ≡ Err same → (same ≡ line) × (event_of line ≡ None) }
{
    Ok(match line {
        Line::Router(name, id) => WEvent::Router { name, id },
        Line::Link(name) => WEvent::Link { name },
        Line::Attach(name, endpoint, link) => WEvent::Attach {
            name,
            endpoint,
            link,
        },
        Line::Detach(name, endpoint) => WEvent::Detach { name, endpoint },
        Line::External(name, prefix, valid, preferred) => WEvent::External {
            name,
            prefix,
            valid,
            preferred,
        },
        Line::Withdraw(name, prefix) => WEvent::Withdraw { name, prefix },
        Line::Caps(name, caps) => WEvent::Caps { name, caps },
        Line::Private(name, length) => WEvent::Private { name, length },
        Line::Stop(name) => WEvent::Stop { name },
        Line::Start(name) => WEvent::Start { name },
        Line::Time(moment) => WEvent::Time { moment },
        Line::Tick(name) => WEvent::Tick { name },
        Line::Drop(copy) => WEvent::Drop { copy },
        other => return Err(other),
    })
}

/// The line of a script that an event is; `None` for the two that are none. Never allocates.
pub fn line_of(event: &WEvent) -> Option<Line>
    ensures { result ≡ line_of event.now }
{
    Some(match event {
        WEvent::Router { name, id } => Line::Router(*name, *id),
        WEvent::Link { name } => Line::Link(*name),
        WEvent::Attach {
            name,
            endpoint,
            link,
        } => Line::Attach(*name, *endpoint, *link),
        WEvent::Detach { name, endpoint } => Line::Detach(*name, *endpoint),
        WEvent::External {
            name,
            prefix,
            valid,
            preferred,
        } => Line::External(*name, *prefix, *valid, *preferred),
        WEvent::Withdraw { name, prefix } => Line::Withdraw(*name, *prefix),
        WEvent::Caps { name, caps } => Line::Caps(*name, *caps),
        WEvent::Private { name, length } => Line::Private(*name, *length),
        WEvent::Stop { name } => Line::Stop(*name),
        WEvent::Start { name } => Line::Start(*name),
        WEvent::Time { moment } => Line::Time(*moment),
        WEvent::Tick { name } => Line::Tick(*name),
        WEvent::Deliver { copy } => Line::Deliver(*copy),
        WEvent::Drop { copy } => Line::Drop(*copy),
        _ => return None,
    })
}

/// The report that a line is, if it is one.
pub(crate) fn report_of(line: &Line) -> Option<Report>
    ensures { result ≡ report_of line.now }
{
    Some(match line {
        Line::Show(name) => Report::Router(*name, About::Show),
        Line::Hash(name) => Report::Router(*name, About::Hash),
        Line::Used(name) => Report::Router(*name, About::Used),
        Line::Prefixes(name) => Report::Router(*name, About::Prefixes),
        Line::Elect(name, e, letter) => Report::Router(*name, About::Elect(*e, *letter)),
        Line::Advert(name, e) => Report::Router(*name, About::Advert(*e)),
        Line::Audit(name) => Report::Router(*name, About::Audit),
        Line::Addresses(name) => Report::Router(*name, About::Addresses),
        Line::Addressed(name) => Report::Router(*name, About::Addressed),
        Line::Ulas(name) => Report::Router(*name, About::Ulas),
        Line::Compare(left, right) => Report::Compare(*left, *right),
        Line::Mail => Report::Mail,
        _ => return None,
    })
}
