ghost use Rattle.std.specs.Prelude.{ℕ, IfOk, IfErr, IfSome, IfNone};
ghost use Rattle.std.specs.Ordering.{nat_cmp};
ghost use Rattle.std.specs.List.Sorted.{IsStrictlySortedBy};
ghost use Rattle.hn_store.specs.Nodes.{ids_of_held};
ghost use Rattle.hn_store.specs.Place.{IsPlaceOf, IsGapFor};

use crate::stored::HeldNode;
use hn_base::NodeId;

/// The place of a node among nodes in ascending order, or the place where it is to stand. Never allocates.
pub(crate) fn place_of(nodes: &[HeldNode], id: NodeId) -> Result<usize, usize>
    requires { IsStrictlySortedBy nat_cmp (ids_of_held nodes.now) }
    ensures found { IfOk result (IsPlaceOf nodes.now id.0) }
    ensures absent { IfErr result (IsGapFor nodes.now id.0) }
{
    nodes.binary_search_by_key(&id, |node| node.id)
}

/// The place of a node among nodes in ascending order, which is looked for at this place first. Never allocates.
pub(crate) fn near(nodes: &[HeldNode], place: usize, id: NodeId) -> Option<usize>
    requires { IsStrictlySortedBy nat_cmp (ids_of_held nodes.now) }
    ensures found { IfSome result (IsPlaceOf nodes.now id.0) }
    ensures absent { IfNone result ((place : ℕ) × IsGapFor nodes.now id.0 place) }
{
    if place < nodes.len() && nodes[place].id == id {
        return Some(place);
    }
    match place_of(nodes, id) {
        Ok(place) => Some(place),
        Err(_) => None,
    }
}
