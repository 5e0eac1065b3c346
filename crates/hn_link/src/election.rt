ghost use Rattle.std.specs.Prelude.{IfSome, IfNone};
ghost use Rattle.hn_data.specs.View.{IsNetwork, plain_view};
ghost use Rattle.hn_link.specs.Election.{IsElected, HasNoCandidate};

use crate::rank::{Rank, rank_in_view};
use hn_base::{EpId, Letter, NodeId};
use hn_data::View;

/// Who is elected for a capability among the nodes that have an endpoint on a link (RFC 7788, sections 4 and 6.1): of
/// those in view that offer it, with a priority other than 0, the one with the greatest priority; of equal ones the one
/// whose four priorities are greater, as the number 4096 M + 256 P + 16 H + L; of equal ones the one with the greater
/// identifier. `None` if and only if nobody offers it. Never allocates.
pub fn elected(view: &View<'_>, common: &[(NodeId, EpId)], letter: Letter) -> Option<NodeId>
    requires { IsNetwork view.now.own.0 view.now.nodes.now }
    ensures found { IfSome result (IsElected (plain_view view.entry.now) common.now letter) }
    ensures none { IfNone result (HasNoCandidate (plain_view view.entry.now) common.now letter) }
{
    let mut best: Option<Rank> = None;
    for (node, _) in common {
        if let Some(rank) = rank_in_view(view, *node, letter) {
            best = Some(best.map_or(rank, |best| best.max(rank)));
        }
    }
    best.map(|best| best.node)
}
