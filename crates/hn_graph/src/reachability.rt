ghost use Rattle.std.specs.Prelude.{◌↔◌, IfOk};
ghost use Rattle.std.specs.List.{Contains};
ghost use Rattle.std.specs.List.Sorted.{IsStrictlySortedBy};
ghost use Rattle.hn_base.specs.NodeIds.{node_cmp};
ghost use Rattle.hn_base.specs.declared.ids.NodeId.{NodeId};
ghost use Rattle.hn_data.specs.View.{IsNetwork};
ghost use Rattle.hn_graph.specs.Path.{IsReachable};

use crate::search::{found_ids, mark, next_places};
use hn_base::{NoMemory, NodeId, NodeIds};
use hn_data::{Entry, place_of};
use std::alloc::Global;

/// The identifiers of the nodes that can be reached from the own node, the own one among them, in ascending order (RFC
/// 7787, section 4.6). The nodes are in strictly ascending order of their identifiers, and the own one is among them.
///
/// # Errors
///
/// Out of memory.
pub fn reach(alloc: Global, own: NodeId, nodes: &[Entry]) -> Result<NodeIds, NoMemory>
    requires { IsNetwork own.0 nodes.now }
    ensures ascending { IfOk result (IsStrictlySortedBy node_cmp) }
    ensures exact { IfOk result (λ reached. (y : NodeId) → Contains reached y ↔ IsReachable own.0 nodes.now y.0) }
{
    let mut found = vec![in alloc; false; nodes.len()]?;
    let mut visits = Vec::with_capacity(alloc, nodes.len())?;
    let Some(start) = place_of(nodes, own) else {
        unreachable!()
    };
    mark(&[start], &mut found, &mut visits)?;
    let mut visited = 0;
    let mut places = Vec::new(alloc);
    while let Some(place) = visits.pop() {
        visited += 1;
        let left = visited + visits.len() < nodes.len();
        next_places(nodes, &nodes[place], &found, left, &mut places)?;
        mark(&places, &mut found, &mut visits)?;
    }
    found_ids(alloc, nodes, &found)
}
