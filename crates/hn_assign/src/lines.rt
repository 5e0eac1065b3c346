//! The further lines of the table: a pair with a best prefix, an assignment, or both (RFC 7695, section 4.1).

ghost use Rattle.std.specs.Prelude.{◌≡◌, ◌↔◌, IsTrue, IsSome, IsNone, Some};
ghost use Rattle.hn_assign.specs.Scene.{plain_scene};
ghost use Rattle.hn_assign.specs.Lines.{following, IfValid, IsAhead, IsFollowed, IsKeptAlone, IsAdopted, IsKeptAhead};
ghost use Rattle.hn_assign.specs.Lines.{IsYielded, IsReplacedByBest};

use crate::advertised::Advertised;
use crate::precedence::PRIORITY;
use crate::scene::Scene;
use crate::slot::Slot;
use hn_base::Key;
use hn_pair::Assigned;

impl Scene<'_> {
    /// 2. A best prefix and no assignment: the best is followed.
    pub(crate) fn followed(&self, best: &Advertised) -> Slot
        ensures { IsFollowed (plain_scene self.entry.now) best.now result }
    {
        self.following(best)
    }

    /// 3. No best prefix and a published assignment: it is kept where it is valid, and else destroyed.
    pub(crate) fn kept(&self, c: &Assigned, before: &Slot) -> Slot
        requires { IsSome c.now.published }
        ensures { IsKeptAlone (plain_scene self.entry.now) c.now before.now result }
    {
        self.if_valid(c, before, before)
    }

    /// 4. No best prefix and an unpublished assignment: it is published where it is valid, and else destroyed.
    pub(crate) fn adopted(&self, c: &Assigned, before: &Slot) -> Slot
        requires { IsNone c.now.published }
        ensures { IsAdopted (plain_scene self.entry.now) c.now before.now result }
    {
        self.if_valid(c, &published(c, Some(PRIORITY), before), before)
    }

    /// 5. A best prefix and an assignment ahead of it: it is kept where it is valid, and else destroyed.
    pub(crate) fn kept_ahead(&self, best: &Advertised, c: &Assigned, before: &Slot) -> Slot
        requires { IsAhead (plain_scene self.now) best.now c.now }
        ensures { IsKeptAhead (plain_scene self.entry.now) best.now c.now before.now result }
    {
        self.if_valid(c, before, before)
    }

    /// 6. A best prefix and any other assignment with its prefix: it is made or left unpublished.
    pub(crate) fn yielded(&self, best: &Advertised, c: &Assigned, before: &Slot) -> Slot
        requires not_ahead { ¬ (IsAhead (plain_scene self.now) best.now c.now) }
        requires same { c.now.prefix ≡ best.now.prefix }
        ensures { IsYielded (plain_scene self.entry.now) best.now c.now before.now result }
    {
        published(c, None, before)
    }

    /// 7. A best prefix and any other assignment: it is destroyed, and the best is followed.
    pub(crate) fn replaced(&self, best: &Advertised, c: &Assigned) -> Slot
        requires not_ahead { ¬ (IsAhead (plain_scene self.now) best.now c.now) }
        requires other { ¬ (c.now.prefix ≡ best.now.prefix) }
        ensures { IsReplacedByBest (plain_scene self.entry.now) best.now c.now result }
    {
        self.following(best)
    }

    /// The best prefix is followed from now on.
    fn following(&self, best: &Advertised) -> Slot
        ensures { result ≡ following (plain_scene self.entry.now) best.now }
    {
        Slot {
            assigned: Some(self.assignment(best.prefix, None)),
            backoff: None,
        }
    }

    /// What the pair has where its assignment is valid; else the assignment is destroyed.
    fn if_valid(&self, c: &Assigned, valid: &Slot, before: &Slot) -> Slot
        ensures { IfValid (plain_scene self.entry.now) c.now valid.now before.now result }
    {
        if self.is_valid(c) {
            return *valid;
        }
        Slot {
            assigned: None,
            backoff: before.backoff,
        }
    }

    /// Whether the assignment is published with a key above that of the best prefix.
    pub(crate) fn is_ahead(&self, best: &Advertised, c: &Assigned) -> bool
        ensures { IsTrue result ↔ IsAhead (plain_scene self.entry.now) best.now c.now }
    {
        match c.published {
            None => false,
            Some(priority) => Key {
                priority,
                node: self.own,
                endpoint: self.wish.endpoint,
            }
            .is_above(&best.key),
        }
    }
}

/// What the pair has with its assignment published so.
fn published(c: &Assigned, priority: Option<u8>, before: &Slot) -> Slot
    ensures { result ≡ record before.now { assigned = Some (record c.now { published = priority }) } }
{
    Slot {
        assigned: Some(Assigned {
            published: priority,
            ..*c
        }),
        backoff: before.backoff,
    }
}
