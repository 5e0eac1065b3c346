//! When the endpoint last sent that is a peer of another one.

ghost use Rattle.std.specs.Prelude.{◌↔◌, ◌<◌, ℕ, IsTrue, IfSome};
ghost use Rattle.hn_audit.specs.First.{IsFirstFound};
ghost use Rattle.hn_calm.specs.Peers.{IsPeerOnLink, FindsSent, FindsSentOf};

use hn_audit::are_on_one_link;
use hn_base::{EpId, Moment};
use hn_dncp::{Neighbour, Port};
use hn_world::{Member, World};

/// Whether an endpoint of x is a peer of an endpoint of y, which is another router, on one link with it.
fn is_peer(x: &Member, port: &Port, y: &Member, q: EpId, peer: &Neighbour) -> bool
    ensures { IsTrue result ↔ IsPeerOnLink x.now port.now y.now q peer.now }
{
    peer.node == x.router.id()
        && peer.endpoint == port.id
        && x.router.id() != y.router.id()
        && are_on_one_link(x, port.id, y, q)
}

/// Whether a moment is after another one, if there is one.
fn is_after(after: Option<Moment>, moment: Moment) -> bool
    ensures { IsTrue result ↔ IfSome after (λ a. a < moment) }
{
    match after {
        Some(after) => after < moment,
        None => true,
    }
}

/// When an endpoint of x last sent that is this peer, if that was after a moment.
fn sent_by(
    x: &Member,
    y: &Member,
    q: EpId,
    peer: &Neighbour,
    after: Option<Moment>,
) -> Option<Moment>
    ensures { IsFirstFound (FindsSent x.now y.now q peer.now after) x.now.router.ports result }
{
    for port in x.router.ports() {
        if is_peer(x, port, y, q, peer) && is_after(after, port.sent) {
            return Some(port.sent);
        }
    }
    None
}

/// The same, of a router that runs.
fn sent_while_running(
    x: &Member,
    y: &Member,
    q: EpId,
    peer: &Neighbour,
    after: Option<Moment>,
) -> Option<Moment>
    ensures { FindsSentOf y.now q peer.now after x.now result }
{
    if !x.running {
        return None;
    }
    sent_by(x, y, q, peer, after)
}

/// When an endpoint of a running router last sent that is this peer, if that was after a moment.
pub(crate) fn sent(
    world: &World,
    y: &Member,
    q: EpId,
    peer: &Neighbour,
    after: Option<Moment>,
) -> Option<Moment>
    ensures { IsFirstFound (FindsSentOf y.now q peer.now after) world.now.parts.members result }
{
    for x in world.members() {
        if let Some(sent) = sent_while_running(x, y, q, peer, after) {
            return Some(sent);
        }
    }
    None
}
