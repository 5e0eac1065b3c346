//! The set of a router: the running routers that it reaches.

ghost use Rattle.std.specs.Prelude.{◌≡◌};
ghost use Rattle.hn_audit.specs.Set.{is_in_set};

use hn_base::NodeId;
use hn_world::Member;

/// Whether a router runs, and has one of these identifiers.
pub(crate) fn is_in_set(member: &Member, reach: &[NodeId]) -> bool
    ensures { result ≡ is_in_set reach.now member.now }
{
    member.running && reach.contains(&member.router.id())
}
