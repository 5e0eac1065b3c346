ghost use Rattle.std.specs.Prelude.{◌≡◌, IfSome, IfNone};
ghost use Rattle.hn_typed.specs.Item.{PlainCaps};
ghost use Rattle.hn_typed.specs.View.{plain_caps};
ghost use Rattle.hn_data.specs.View.{IsNetwork, plain_view};
ghost use Rattle.hn_link.specs.Election.{IsServing, rank_of};
ghost use Rattle.hn_link.specs.Standing.{HasRank};

use hn_base::{Caps, Letter, NodeId};
use hn_data::{View, place_of, version};

/// What decides an election, in this order: the priority for the capability, the four priorities as one number, the
/// identifier.
#[derive(Clone, Copy, PartialEq, Eq, PartialOrd, Ord)]
pub(crate) struct Rank {
    pub(crate) priority: u8,
    pub(crate) combined: u16,
    pub(crate) node: NodeId,
}

/// The rank of a node with these priorities.
fn rank_with(caps: &Caps, letter: Letter, node: NodeId) -> Rank
    ensures { result ≡ rank_of letter (plain_caps caps.now) node }
{
    let Caps { m, p, h, l } = *caps;
    let priority = match letter {
        Letter::M => m,
        Letter::P => p,
        Letter::H => h,
        Letter::L => l,
    };
    Rank {
        priority,
        combined: 4096 * u16::from(m) + 256 * u16::from(p) + 16 * u16::from(h) + u16::from(l),
        node,
    }
}

/// The rank of a node that serves; `None` if and only if it does not.
pub(crate) fn rank_in_view(view: &View<'_>, node: NodeId, letter: Letter) -> Option<Rank>
    requires { IsNetwork view.now.own.0 view.now.nodes.now }
    ensures found { IfSome result (HasRank (plain_view view.entry.now) letter node) }
    ensures each { IfSome result (λ rank. (caps : PlainCaps) → IsServing (plain_view view.entry.now) letter node caps → rank ≡ rank_of letter caps node) }
    ensures absent { IfNone result ((caps : PlainCaps) → ¬ (IsServing (plain_view view.entry.now) letter node caps)) }
{
    let place = place_of(view.nodes, node)?;
    let caps = version(&view.nodes[place].body)?;
    let rank = rank_with(&caps, letter, node);
    if rank.priority > 0 { Some(rank) } else { None }
}
