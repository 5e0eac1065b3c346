ghost use Rattle.std.specs.Prelude.{◌≡◌, ◌^◌, ◌≤◌, ◌++◌, false, IfOk, OnOk};
ghost use Rattle.std.specs.Option.{option_to_list};
ghost use Rattle.hn_data.specs.View.{plain_view};
ghost use Rattle.hn_assign.specs.Gathered.{AdvertiseSame, AreAdvertised};
ghost use Rattle.hn_assign.specs.Step.{IsPairStep, StepTook};

use crate::assignments::change_assigned;
use crate::backoffs::change_backoff;
use crate::index::Index;
use crate::ran::Ran;
use crate::scene::Scene;
use crate::slot::slot_of;
use hn_base::{NoMemory, Words};
use hn_data::View;
use hn_io::Draw;
use hn_pair::{Paired, Wish};

impl Ran {
    /// The turn of a pair: whether it changed what the router advertises.
    pub(crate) fn step<'a, D: Draw>(
        &mut self,
        view: &View<'_>,
        known: &'a Index,
        wish: &'a Wish,
        draw: &mut D,
    ) -> Result<bool, NoMemory>
        requires known { AreAdvertised (plain_view view.now) self.old.held.assigned known.now }
        requires length { wish.now.length ≤ 64 }
        requires moment { view.now.now ≤ 2 ^ 48 }
        ensures step { IfOk result (λ _. StepTook (plain_view view.entry.now) wish.now (D.words draw.old) (D.words draw.new)
            self.old self.new) }
        ensures unchanged { IfOk result (λ changed. changed ≡ false
            → AdvertiseSame self.old.held.assigned self.new.held.assigned) }
    {
        let pair = wish.pair();
        let before = slot_of(&self.held, &pair);
        let scene = Scene {
            own: view.own,
            now: view.now,
            wish,
            known,
        };
        let turn = scene.turn(&before, draw);
        add(&mut self.words, turn.word)?;
        change_backoff(
            &mut self.held.backoffs,
            &pair,
            &before.backoff,
            &turn.slot.backoff,
        )?;
        change_assigned(
            &mut self.held.assigned,
            &pair,
            &before.assigned,
            &turn.slot.assigned,
        )
    }
}

/// Adds a word, where there is one.
fn add(words: &mut Words, word: Option<u32>) -> Result<(), NoMemory>
    ensures { OnOk result (words.new ≡ words.old ++ option_to_list word) }
{
    match word {
        None => Ok(()),
        Some(word) => words.push(word),
    }
}
