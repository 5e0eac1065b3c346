ghost use Rattle.std.specs.Prelude.{◌≡◌};
ghost use Rattle.rand_core.specs.Pcg32Seed.{pcg32_seed};
ghost use Rattle.rand_pcg.specs.Pcg.{pcg32_of_seed};
ghost use Rattle.hn_io.specs.Pcg.{pcg_word};
ghost use Rattle.hn_play.specs.Stage.{stream_words};

use hn_io::{Draw, Pcg};

/// The random words of a play: zeros, or those of a generator.
#[derive(Drop)]
pub struct Stream {
    pub seeded: Option<Pcg>,
}

impl Stream {
    /// Zeros. Never allocates.
    pub(crate) fn zeros() -> Stream
        ensures { stream_words result ≡ (λ _. 0) }
    {
        Stream { seeded: None }
    }

    /// The words of a seed. Never allocates.
    pub fn of_seed(seed: u64) -> Stream
        ensures { stream_words result ≡ pcg_word (pcg32_of_seed (pcg32_seed 16 seed)) }
    {
        Stream {
            seeded: Some(Pcg::new(seed)),
        }
    }
}

impl Draw for Stream {
    ghost use Rattle.std.specs.Prelude.{Some};

    ghost words = { λ s. Some (stream_words s) };

    fn next(&mut self) -> u32 {
        match &mut self.seeded {
            Some(pcg) => pcg.next(),
            None => 0,
        }
    }
}
