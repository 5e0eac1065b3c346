ghost use Rattle.std.specs.Prelude.{◌≡◌, ◌∷◌, [], IfOk, OnOk};
ghost use Rattle.hn_base.specs.Words.{Drew};
ghost use Rattle.hn_rules.specs.Rules.{with_words};

use crate::running::Running;
use hn_base::NoMemory;
use hn_io::Draw;

impl Running {
    /// Takes the next random word.
    pub(crate) fn take<D: Draw>(&mut self, draw: &mut D) -> Result<u32, NoMemory>
        ensures word { IfOk result (λ word. self.new ≡ with_words (word ∷ []) self.old) }
        ensures drew { OnOk result (Drew (D.words draw.old) self.old.done.words (D.words draw.new) self.new.done.words) }
    {
        let word = draw.next();
        self.done.words.push(word)?;
        Ok(word)
    }

    /// Random words were taken.
    pub(crate) fn took_words(&mut self, words: &[u32]) -> Result<(), NoMemory>
        ensures { OnOk result (self.new ≡ with_words words.now self.old) }
    {
        for word in words {
            self.done.words.push(*word)?;
        }
        Ok(())
    }
}
