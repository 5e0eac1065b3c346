//! The line of the table that applies to a pair (RFC 7695, section 4.1).

ghost use Rattle.std.specs.Prelude.{◌≡◌, ◌^◌, ◌≤◌, ◌⊎◌, Some, None, []};
ghost use Rattle.std.specs.Option.{option_to_list};
ghost use Rattle.hn_base.specs.Words.{Took};
ghost use Rattle.hn_assign.specs.Scene.{plain_scene};
ghost use Rattle.hn_assign.specs.Lines.{IsKeptAlone, IsAdopted, IsKeptAhead, IsYielded, IsReplacedByBest, IsPairTurn};

use crate::advertised::Advertised;
use crate::scene::Scene;
use crate::slot::{Slot, Turn};
use hn_io::Draw;
use hn_pair::Assigned;

impl Scene<'_> {
    /// What a pair has after its turn.
    pub(crate) fn turn<D: Draw>(&self, before: &Slot, draw: &mut D) -> Turn
        requires length { self.now.wish.now.length ≤ 64 }
        requires moment { self.now.now ≤ 2 ^ 48 }
        ensures turn { IsPairTurn (plain_scene self.entry.now) before.now (option_to_list result.word) result.slot }
        ensures drew { Took (D.words draw.old) (option_to_list result.word) (D.words draw.new) }
    {
        match (self.best(), before.assigned) {
            (None, None) => self.unassigned(before, draw),
            (Some(best), None) => Turn::quiet(self.followed(&best)),
            (None, Some(c)) => Turn::quiet(self.alone(&c, before)),
            (Some(best), Some(c)) => Turn::quiet(self.beside(&best, &c, before)),
        }
    }

    /// Lines 3 and 4: no best prefix and an assignment.
    fn alone(&self, c: &Assigned, before: &Slot) -> Slot
        ensures { IsKeptAlone (plain_scene self.entry.now) c.now before.now result
            ⊎ IsAdopted (plain_scene self.entry.now) c.now before.now result }
    {
        if c.published.is_some() {
            self.kept(c, before)
        } else {
            self.adopted(c, before)
        }
    }

    /// Lines 5 to 7: a best prefix and an assignment.
    fn beside(&self, best: &Advertised, c: &Assigned, before: &Slot) -> Slot
        ensures { IsKeptAhead (plain_scene self.entry.now) best.now c.now before.now result
            ⊎ (IsYielded (plain_scene self.entry.now) best.now c.now before.now result
            ⊎ IsReplacedByBest (plain_scene self.entry.now) best.now c.now result) }
    {
        if self.is_ahead(best, c) {
            self.kept_ahead(best, c, before)
        } else if c.prefix == best.prefix {
            self.yielded(best, c, before)
        } else {
            self.replaced(best, c)
        }
    }
}
