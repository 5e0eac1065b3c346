//! Whether pairs of a delegated prefix and an endpoint are at rest (RFC 7695, section 4.1).

ghost use Rattle.std.specs.Prelude.{◌↔◌, ◌≤◌, IsTrue};
ghost use Rattle.hn_assign.specs.Rest.{StaysAlone, StaysBeside, RestsWith};
ghost use Rattle.hn_assign.specs.Scene.{plain_scene};

use crate::advertised::Advertised;
use crate::scene::Scene;
use hn_pair::Assigned;

impl Scene<'_> {
    /// Whether an assignment stays where no other node has the best prefix.
    fn stays_alone(&self, c: &Assigned) -> bool
        ensures { IsTrue result ↔ StaysAlone (plain_scene self.entry.now) c.now }
    {
        c.published.is_some() && self.is_valid(c)
    }

    /// Whether an assignment stays beside the best prefix.
    fn stays_beside(&self, c: &Assigned, best: &Advertised) -> bool
        ensures { IsTrue result ↔ StaysBeside (plain_scene self.entry.now) c.now best.now }
    {
        match c.published {
            Some(_) => self.is_ahead(best, c) && self.is_valid(c),
            None => c.prefix == best.prefix,
        }
    }
}

/// Whether the pair is at rest, with the assignment that it has, if any. Never allocates.
pub fn is_at_rest(scene: &Scene<'_>, assignment: &Option<Assigned>) -> bool
    requires { scene.now.wish.now.length ≤ 64 }
    ensures { IsTrue result ↔ RestsWith (plain_scene scene.entry.now) assignment.now }
{
    match (scene.best(), assignment) {
        (None, None) => !scene.has_free(),
        (None, Some(c)) => scene.stays_alone(c),
        (Some(_), None) => false,
        (Some(best), Some(c)) => scene.stays_beside(c, &best),
    }
}
