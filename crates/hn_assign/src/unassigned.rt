//! The first line of the table: a pair without a best prefix and without an assignment (RFC 7695, section 4.1).

ghost use Rattle.std.specs.Prelude.{◌≡◌, ◌^◌, ◌≤◌, Some, None, MatchBool};
ghost use Rattle.std.specs.Option.{option_to_list};
ghost use Rattle.hn_base.specs.Words.{Took};
ghost use Rattle.hn_assign.specs.Scene.{plain_scene};
ghost use Rattle.hn_assign.specs.Unassigned.{HasFree, HasNothingToDo, IsLeftAlone, IsPostponed, IsWaiting, IsMade, IsUnassigned};

use crate::precedence::PRIORITY;
use crate::scene::Scene;
use crate::slot::{Slot, Turn};
use hn_io::Draw;
use hn_pair::Backoff;

/// Backoffs are below this many milliseconds (RFC 7788, section 6.3).
const BACKOFFS: u32 = 4001;

impl Scene<'_> {
    /// 1. Neither a best prefix nor an assignment: a backoff is cancelled, set, waited for, or ends in an assignment.
    pub(crate) fn unassigned<D: Draw>(&self, before: &Slot, draw: &mut D) -> Turn
        requires length { self.now.wish.now.length ≤ 64 }
        requires moment { self.now.now ≤ 2 ^ 48 }
        ensures line { IsUnassigned (plain_scene self.entry.now) before.now (option_to_list result.word) result.slot }
        ensures drew { Took (D.words draw.old) (option_to_list result.word) (D.words draw.new) }
    {
        if !self.has_free() {
            return self.leave(before);
        }
        match before.backoff {
            None => self.postpone(before, draw),
            Some(backoff) => {
                if self.now < backoff.due {
                    Turn::quiet(*before)
                } else {
                    self.make(before, &backoff, draw)
                }
            }
        }
    }

    /// Whether a prefix is wanted and one is free.
    pub(crate) fn has_free(&self) -> bool
        requires { self.now.wish.now.length ≤ 64 }
        ensures { MatchBool result (HasFree (plain_scene self.entry.now)) (HasNothingToDo (plain_scene self.entry.now)) }
    {
        self.wish.wanted && self.first_free(0).is_some()
    }

    /// A backoff is cancelled.
    fn leave(&self, before: &Slot) -> Turn
        ensures { result ≡ record { slot = record before.now { backoff = None }; word = None } }
    {
        Turn::quiet(Slot {
            assigned: before.assigned,
            backoff: None,
        })
    }

    /// A backoff is set.
    fn postpone<D: Draw>(&self, before: &Slot, draw: &mut D) -> Turn
        requires free { HasFree (plain_scene self.now) }
        requires none { before.now.backoff ≡ None }
        requires moment { self.now.now ≤ 2 ^ 48 }
        ensures line { IsPostponed (plain_scene self.entry.now) before.now (option_to_list result.word) result.slot }
        ensures drew { Took (D.words draw.old) (option_to_list result.word) (D.words draw.new) }
    {
        let word = draw.next();
        let backoff = Backoff {
            delegated: self.wish.delegated,
            endpoint: self.wish.endpoint,
            due: self.now + u64::from(word % BACKOFFS),
        };
        Turn {
            slot: Slot {
                assigned: before.assigned,
                backoff: Some(backoff),
            },
            word: Some(word),
        }
    }

    /// An assignment is made.
    fn make<D: Draw>(&self, before: &Slot, backoff: &Backoff, draw: &mut D) -> Turn
        requires free { HasFree (plain_scene self.now) }
        requires backoff { before.now.backoff ≡ Some backoff.now }
        requires due { backoff.now.due ≤ self.now.now }
        requires length { self.now.wish.now.length ≤ 64 }
        ensures line { IsMade (plain_scene self.entry.now) before.now (option_to_list result.word) result.slot }
        ensures drew { Took (D.words draw.old) (option_to_list result.word) (D.words draw.new) }
    {
        let word = draw.next();
        let Some(prefix) = self.first_free(word) else {
            unreachable!()
        };
        Turn {
            slot: Slot {
                assigned: Some(self.assignment(prefix, Some(PRIORITY))),
                backoff: None,
            },
            word: Some(word),
        }
    }
}
