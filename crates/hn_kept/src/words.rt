ghost use Rattle.std.specs.Prelude.{◌≡◌, Some};
ghost use Rattle.rand_chacha.specs.ChaCha.{of_seed, next_word};
ghost use Rattle.hn_kept.specs.Words.{chacha_after, chacha_word, listed_word};

use hn_io::Draw;
use rand_chacha::ChaCha20Rng;
use rand_core::SeedableRng;
use rand_core::utils::NextWord;
use std::marker::Model;

/// The words of the cipher ChaCha with 20 rounds, which nobody can tell who does not know the seed. Contracts see the key,
/// and the place of the next word.
#[derive(Drop)]
pub struct ChaChaWords {
    generator: ChaCha20Rng,
}

impl Model for ChaChaWords {
    ghost use Rattle.rand_chacha.specs.ChaCha.{ChaCha};

    ghost Value = { ChaCha };

    ghost view = { λ w. w.generator };
}

impl ChaChaWords {
    /// The words of a seed of 32 bytes. Never allocates.
    pub fn new(seed: [u8; 32]) -> ChaChaWords
        ensures { result ≡ of_seed seed }
    {
        ChaChaWords {
            generator: ChaCha20Rng::from_seed(seed),
        }
    }

    /// The same words from here on. Never allocates.
    pub(crate) fn copy(&self) -> ChaChaWords
        ensures { result ≡ self.now }
    {
        let Ok(generator) = self.generator.clone() else {
            unreachable!()
        };
        ChaChaWords { generator }
    }

    // The next word.
    fn take(&mut self) -> u32
        ensures word { result ≡ (next_word 10 self.old).0 }
        ensures rest { self.new ≡ (next_word 10 self.old).1 }
    {
        self.generator.next_word()
    }

    /// Passes over so many words. Never allocates.
    pub(crate) fn pass(&mut self, count: usize)
        ensures { self.new ≡ chacha_after count self.old }
    {
        for _ in 0..count {
            self.take();
        }
    }
}

impl Draw for ChaChaWords {
    ghost words = { λ w. Some (chacha_word w) };

    fn next(&mut self) -> u32 {
        self.generator.next_word()
    }
}

/// Listed words, and after them those that the generator has then: a listed word is taken in the stead of one of the
/// generator's.
#[derive(Drop)]
pub(crate) struct ListedWords<'a> {
    pub(crate) listed: &'a [u32],
    pub(crate) generator: ChaChaWords,
}

impl Draw for ListedWords<'_> {
    ghost words = { λ w. Some (listed_word w.listed.now w.generator) };

    fn next(&mut self) -> u32 {
        let word = self.generator.take();
        match self.listed.split_first() {
            Some((first, rest)) => {
                self.listed = rest;
                *first
            }
            None => word,
        }
    }
}
