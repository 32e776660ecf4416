//! The draws of a seed.
use rand_core::utils::NextWord;
use rand_pcg::Lcg64Xsh32;
use std::marker::Model;

/// The draws of a seed, of which some were made. Contracts see it as the seed and their number.
#[derive(Drop)]
pub struct Draws {
    seed: u64,
    made: u64,
    generator: Lcg64Xsh32,
}

impl Model for Draws {
    ghost use Rattle.std.specs.Prelude.{◌≡◌};
    ghost use Rattle.work_gen.specs.Draws.{Drawing, generator_before};

    ghost Value = { Drawing };

    ghost view = { λ d. record { seed = d.seed; made = d.made } };

    ghost invariant = { λ d. d.generator ≡ generator_before d.seed d.made };
}

impl Draws {
    ghost use Rattle.std.specs.Prelude.{◌≡◌, ◌<◌, ◌+◌, ◌^◌};
    ghost use Rattle.work_gen.specs.Draws.{draw};

    /// The draws of a seed behind the first `made`.
    #[tactic(auto, unfolding(crate::specs::Draws::generator_before))]
    pub fn behind(seed: u64, made: u64) -> Draws
        ensures { result ≡ record { seed = seed; made = made } }
    {
        let mut generator = Lcg64Xsh32::new(seed, 54);
        generator.advance(made);
        Draws {
            seed,
            made,
            generator,
        }
    }

    /// The next draw, below `bound`.
    #[tactic(auto, using(crate::proofs::DrawTurns::generator_next, crate::proofs::DrawTurns::word_drawn))]
    pub fn next(&mut self, bound: u32) -> u32
        requires some { 0 < bound }
        requires few { self.old.made < 2 ^ 32 }
        ensures value { result ≡ draw self.old.seed self.old.made bound }
        ensures below { result < bound }
        ensures next { self.new ≡ record { seed = self.old.seed; made = self.old.made + 1 } }
    {
        let word = self.generator.next_word();
        self.made += 1;
        word % bound
    }
}
