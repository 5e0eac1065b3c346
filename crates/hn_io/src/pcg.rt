ghost use Rattle.std.specs.Prelude.{◌≡◌, Some};
ghost use Rattle.rand_core.specs.Pcg32Seed.{pcg32_seed};
ghost use Rattle.rand_pcg.specs.Pcg.{pcg32_of_seed};
ghost use Rattle.hn_io.specs.Pcg.{pcg_word};

use crate::draw::Draw;
use rand_core::SeedableRng;
use rand_core::utils::NextWord;
use rand_pcg::Lcg64Xsh32;
use std::marker::Model;

/// The words of the generator PCG32 (O'Neill, "PCG: a family of simple fast space-efficient statistically good
/// algorithms for random number generation"). Contracts see the generator's state and increment.
#[derive(Drop)]
pub struct Pcg {
    generator: Lcg64Xsh32,
}

impl Model for Pcg {
    ghost use Rattle.rand_pcg.specs.Lcg.{Lcg};

    ghost Value = { Lcg };

    ghost view = { λ p. p.generator };
}

impl Pcg {
    /// The generator of a seed, any 64-bit number. Never allocates.
    pub fn new(seed: u64) -> Pcg
        ensures { result ≡ pcg32_of_seed (pcg32_seed 16 seed) }
    {
        Pcg {
            generator: Lcg64Xsh32::seed_from_u64(seed),
        }
    }
}

impl Draw for Pcg {
    ghost words = { λ p. Some (pcg_word p) };

    fn next(&mut self) -> u32 {
        self.generator.next_word()
    }
}
