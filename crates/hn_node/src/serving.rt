ghost use Rattle.std.specs.Prelude.{◌≡◌, ◌≤◌, ◌^◌, ◌-◌, List, All, IsTrue, IfOk, OnErr, length, min, count_by};
ghost use Rattle.hn_base.specs.Words.{Took};
ghost use Rattle.hn_io.specs.Faults.{IsCaused};
ghost use Rattle.hn_own.specs.Ports.{is_attached};
ghost use Rattle.hn_wire.specs.declared.datagram.Datagram.{Datagram};
ghost use Rattle.hn_node.specs.Turns.{serving, handed_in, AreTurns, CutTurns, StarvesTurns, arrivals_in, is_tick, logged_words, IsBounded, HasFailed};

use crate::logged::Logged;
use crate::node::Node;
use crate::sending::Site;
use crate::served::{ServeEnd, Served};
use hn_base::{NoMemory, Sequence};
use hn_io::{Draw, IoFault};
use hn_router::Router;
use hn_wire::{Clock, Wire};
use std::alloc::Global;

/// How many datagrams arrived.
fn arrivals_in(log: &[Logged]) -> u64
    ensures { result ≡ arrivals_in log.now }
{
    log.iter().filter(|l| l.is_arrival()).count() as u64
}

/// What came of the turns of a node, which ended so.
fn served(node: Node, end: ServeEnd) -> Served
    ensures router { result.router ≡ node.router }
    ensures log { result.log ≡ node.log }
    ensures taken { result.taken ≡ arrivals_in node.log }
    ensures sent { result.sent ≡ node.sent }
    ensures end { result.end ≡ end }
{
    let taken = arrivals_in(node.log.as_slice());
    let Node { router, log, sent } = node;
    Served {
        router,
        log,
        taken,
        sent,
        end,
    }
}

/// Serves a router in turns, with these ports of its own and of its peers. In each turn it reads the clock once, takes a
/// datagram at its port, or else one at the next port, lets it arrive by unicast, or by multicast, at endpoint 1, and ticks.
/// What comes of each event is sent before the next one: a unicast to the port of its address, a multicast to the port after
/// that of each peer. It ends after so many turns, or with the first call on which the wire fails.
///
/// # Errors
///
/// Out of memory, but not where the count of faults of the wire rose. What was sent and taken then is what turns send and take.
pub fn serve<W: Wire, C: Clock, D: Draw>(
    alloc: Global,
    router: Router,
    port: u16,
    peers: &[u16],
    wire: &mut W,
    clock: &mut C,
    draw: &mut D,
    turns: u32,
) -> Result<Served, NoMemory>
    requires attached { IsTrue (is_attached (record { 0 = 1 }) router.ports) }
    requires port { port ≤ 65534 }
    requires peers { All (λ peer. peer ≤ 65534) peers.now }
    requires past { router.moment ≤ C.last clock.old }
    ensures turns { IfOk result (λ s. s.end ≡ ServeEnd.Turns
        → AreTurns (record { port = port; peers = peers.now }) turns s.log
        (serving router (W.waiting wire.old)) (serving s.router (W.waiting wire.new)) (C.readings clock.old) (C.readings clock.new)
        × (s.sent ≡ min (length (handed_in (record { port = port; peers = peers.now }) s.log)) (2 ^ 64 - 1))) }
    ensures cut { IfOk result (λ s. s.end ≡ ServeEnd.WireFault → (handed : List Datagram)
        × CutTurns (record { port = port; peers = peers.now }) turns s.log handed
        (serving router (W.waiting wire.old)) (serving s.router (W.waiting wire.new)) (C.readings clock.old) (C.readings clock.new)
        × (s.sent ≡ min (length handed) (2 ^ 64 - 1))) }
    ensures starved { OnErr result (StarvesTurns (record { port = port; peers = peers.now }) turns
        (serving router (W.waiting wire.old)) (W.waiting wire.new) (C.readings clock.old) (C.readings clock.new)) }
    ensures taken { IfOk result (λ s. s.taken ≡ arrivals_in s.log) }
    ensures ticks { IfOk result (λ s. s.end ≡ ServeEnd.Turns → count_by is_tick s.log ≡ turns) }
    ensures words { IfOk result (λ s. Took (D.words draw.old) (logged_words s.log) (D.words draw.new)) }
    ensures bounded { IfOk result (λ s. All IsBounded s.log) }
    ensures limit { IfOk result (λ s. s.router.table.limit ≡ router.table.limit) }
    ensures caused { IsCaused (HasFailed result) (W.faults wire.old) (W.faults wire.new)
        (W.never_fails wire.old) (W.never_fails wire.new) }
{
    let site = Site { port, peers };
    let mut node = Node {
        router,
        log: Sequence::new(alloc),
        sent: 0,
    };
    match node.turns(alloc, &site, wire, clock, draw, turns) {
        Ok(()) => Ok(served(node, ServeEnd::Turns)),
        Err(IoFault::Failed) => Ok(served(node, ServeEnd::WireFault)),
        Err(IoFault::NoMemory) => Err(NoMemory),
    }
}
