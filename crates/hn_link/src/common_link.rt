ghost use Rattle.std.specs.Prelude.{◌↔◌, IfOk, IsTrue};
ghost use Rattle.std.specs.List.Sorted.{IsStrictlySortedBy};
ghost use Rattle.std.specs.Ordering.{nat_cmp};
ghost use Rattle.hn_data.specs.View.{IsNetwork, ids_of, plain_view};
ghost use Rattle.hn_link.specs.CommonLink.{IsCommonLink, IsJoined};

use hn_base::{Endpoints, EpId, NoMemory, sort_to_set};
use hn_data::{Entry, PeerLink, View, peer_place, place_of};
use std::alloc::Global;

/// Whether what a node says of a peer is said for this endpoint, and the link is mutual.
fn is_joined(nodes: &[Entry], node: &Entry, link: &PeerLink, e: EpId) -> bool
    requires { IsStrictlySortedBy nat_cmp (ids_of nodes.now) }
    ensures { IsTrue result ↔ IsJoined nodes.now node.now e.0 link.now }
{
    link.endpoint == e && peer_place(nodes, node, link).is_some()
}

/// The Common Link of an own endpoint: that endpoint itself, and each endpoint of a node in view that is linked with it,
/// in ascending order of node and endpoint (RFC 7788, section 6.1).
///
/// The work is near linear in the peers of the own node.
///
/// # Errors
///
/// Out of memory.
pub fn common(alloc: Global, view: &View<'_>, e: EpId) -> Result<Endpoints, NoMemory>
    requires { IsNetwork view.now.own.0 view.now.nodes.now }
    ensures { IfOk result (IsCommonLink (plain_view view.entry.now) e.0) }
{
    let Some(place) = place_of(view.nodes, view.own) else {
        unreachable!()
    };
    let own = &view.nodes[place];
    let mut endpoints = vec![in alloc; (view.own, e)]?;
    for link in own.body.peers() {
        if is_joined(view.nodes, own, link, e) {
            endpoints.push((link.peer, link.peer_endpoint))?;
        }
    }
    sort_to_set(&mut endpoints);
    Ok(Endpoints::from(endpoints))
}
