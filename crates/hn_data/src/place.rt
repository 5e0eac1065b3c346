ghost use Rattle.std.specs.Prelude.{◌≡◌, ◌<◌, ℕ, Some, length, slice_get, IfSome, IfNone};
ghost use Rattle.std.specs.List.{Contains};
ghost use Rattle.std.specs.List.Sorted.{IsStrictlySortedBy};
ghost use Rattle.std.specs.Ordering.{nat_cmp};
ghost use Rattle.hn_data.specs.View.{ids_of};
ghost use Rattle.hn_data.specs.Links.{IsPeerAt};

use crate::asked::linked;
use crate::said::PeerLink;
use crate::view::Entry;
use hn_base::NodeId;

/// The place of a node among nodes in strictly ascending order of their identifiers, by binary search; `None` if and
/// only if it is not among them. Never allocates.
pub fn place_of(nodes: &[Entry], id: NodeId) -> Option<usize>
    requires { IsStrictlySortedBy nat_cmp (ids_of nodes.now) }
    ensures within { IfSome result (λ place. place < length nodes.now) }
    ensures found { IfSome result (λ place. slice_get (ids_of nodes.now) place ≡ Some id.0) }
    ensures absent { IfNone result (¬ (Contains (ids_of nodes.now) id.0)) }
{
    nodes.binary_search_by_key(&id.0, |node| node.id.0).ok()
}

/// The place of the peer that a node says it has, where it is one of the nodes and has the converse peer; `None` if and
/// only if it is not so (RFC 7787, section 4.6). The nodes are in strictly ascending order of their identifiers. Never
/// allocates.
pub fn peer_place(nodes: &[Entry], node: &Entry, link: &PeerLink) -> Option<usize>
    requires { IsStrictlySortedBy nat_cmp (ids_of nodes.now) }
    ensures found { IfSome result (λ place. IsPeerAt nodes.now node.now link.now place) }
    ensures absent { IfNone result ((place : ℕ) → ¬ (IsPeerAt nodes.now node.now link.now place)) }
{
    let place = place_of(nodes, link.peer)?;
    let peer = &nodes[place];
    if linked(
        &node.body,
        node.id,
        link.endpoint,
        &peer.body,
        peer.id,
        link.peer_endpoint,
    ) {
        Some(place)
    } else {
        None
    }
}
