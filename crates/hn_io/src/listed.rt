ghost use Rattle.std.specs.Prelude.{◌≡◌, Some, slice_index};

use crate::draw::Draw;
use std::marker::Model;

/// A draw of listed words, and zeros after them. Contracts see the words that are left.
#[derive(Drop)]
pub struct Listed {
    words: Vec<u32>,
    at: usize,
}

impl Model for Listed {
    ghost use Rattle.std.specs.Prelude.{List, ℕ, drop};

    ghost Value = { List ℕ };

    ghost view = { λ l. drop l.at l.words.items };
}

impl Listed {
    /// A draw that gives these words. Never allocates.
    pub fn new(words: Vec<u32>) -> Listed
        ensures { result ≡ words.items }
    {
        Listed { words, at: 0 }
    }
}

impl Draw for Listed {
    ghost words = { λ l. Some (λ place. slice_index l place) };

    fn next(&mut self) -> u32 {
        match self.words.get(self.at) {
            Some(word) => {
                self.at += 1;
                *word
            }
            None => 0,
        }
    }
}
