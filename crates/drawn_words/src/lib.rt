//! Numbers drawn from a seed: the same seed leads to the same numbers.
#![tactic(auto)]

ghost use Rattle.std.specs.Prelude.{◌≡◌};
ghost use Rattle.drawn_words.specs.Drawing.{words_of, word, draw};

use rand_core::SeedableRng;
use rand_core::utils::NextWord;
use rand_pcg::Pcg32;
use std::marker::Model;

/// The words of 32 bits that follow from a seed, from the next one on.
#[derive(Drop)]
pub struct Words {
    source: Pcg32,
}

impl Model for Words {
    ghost use Rattle.rand_pcg.specs.Lcg.{Lcg};

    ghost Value = { Lcg };

    ghost view = { λ words. words.source };
}

impl Words {
    /// The words that follow from a seed.
    pub fn new(seed: u64) -> Words
        ensures { result ≡ words_of seed }
    {
        Words {
            source: Pcg32::seed_from_u64(seed),
        }
    }

    /// The next word.
    #[inline]
    pub fn next(&mut self) -> u64
        ensures { (result, self.new) ≡ word self.old }
    {
        u64::from(self.source.next_word())
    }

    /// A number below `m`, from the next word, and 0 where `m` is 0.
    #[inline]
    pub fn draw(&mut self, m: usize) -> usize
        ensures drawn { (result, self.new) ≡ draw m self.old }
    {
        (self.next().wrapping_mul(m as u64) >> 32) as usize
    }
}
