ghost use Rattle.std.specs.Prelude.{◌≡◌, ◌↔◌, ◌<◌, length, IsTrue, false};
ghost use Rattle.hn_data.specs.View.{plain_view};
ghost use Rattle.hn_deleg.specs.Used.{IsUnwanted, IsOutside};
ghost use Rattle.hn_deleg.specs.Steps.{HasPreferred, IsConnectedNode};

use crate::delegated::Delegated;
use hn_data::{Entry, View, version};

/// Whether a usable prefix, the one at place `i`, is wanted for assignment: not if and only if its preferred lifetime
/// has ended and that of another has not (RFC 7788, section 6.3). Never allocates.
pub fn wanted(list: &[Delegated], i: usize) -> bool
    requires { i < length list.now }
    ensures wanted { IsTrue result ↔ ¬ (IsUnwanted list.now i) }
    ensures unwanted { (result ≡ false) ↔ IsUnwanted list.now i }
{
    list[i].preferred > 0 || !is_any_preferred(list)
}

/// Whether a preferred lifetime has not ended.
fn is_any_preferred(list: &[Delegated]) -> bool
    ensures { IsTrue result ↔ HasPreferred list.now }
{
    list.iter().any(|d| d.preferred > 0)
}

/// Whether a node has an HNCP-Version and an External-Connection.
fn is_connected(node: &Entry) -> bool
    ensures { IsTrue result ↔ IsConnectedNode node.now }
{
    version(&node.body).is_some() && node.body.has_external()
}

/// Whether a reachable node with an HNCP-Version has a connection to the outside (RFC 7788, section 10.2). Never
/// allocates.
pub fn outside(view: &View<'_>) -> bool
    ensures { IsTrue result ↔ IsOutside (plain_view view.entry.now) }
{
    view.nodes.iter().any(is_connected)
}
