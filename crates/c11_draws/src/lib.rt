//! The choices of a run: the words of its seed, one after another.
#![tactic(auto)]

ghost use Rattle.std.specs.Prelude.{◌≡◌, ◌<◌, ◌+◌, ◌%◌, ℕ, IfOk};
ghost use Rattle.c11_events.specs.Draws.{after_words, chosen, words_for, generator};
ghost use Rattle.rand_pcg.specs.Lcg.{Lcg, state_after};

use c11_num::NoMemory;
use rand_core::utils::NextWord;
use rand_pcg::Lcg64Xsh32;
use std::marker::Model;

#[cfg(test)]
mod tests;

/// The generator of a run. Contracts see its state; after how many words of a seed it stands there is said by `after_words`.
#[derive(Drop)]
pub struct Draws {
    generator: Lcg64Xsh32,
}

impl Model for Draws {
    ghost use Rattle.rand_pcg.specs.Lcg.{Lcg};

    ghost Value = { Lcg };

    ghost view = { λ d. d.generator };
}

impl Draws {
    /// The generator of the seed, before its first word.
    #[tactic(auto, unfolding(c11_events::specs::Draws::generator, rand_pcg::specs::Lcg::state_after))]
    pub fn new(seed: u64) -> Draws
        ensures { result ≡ after_words seed 0 }
    {
        Draws {
            generator: Lcg64Xsh32::new(seed, 1442695040888963407),
        }
    }

    /// The same generator again.
    pub fn copy(&self) -> Result<Draws, NoMemory>
        ensures { IfOk result (λ copy. copy ≡ self.now) }
    {
        Ok(Draws {
            generator: self.generator.clone()?,
        })
    }

    /// A choice among so many, from 0: the next word modulo their number where there are two or more; a single one takes no word.
    pub fn draw(&mut self, choices: u32) -> u32
        requires { 0 < choices }
        ensures within { result < choices }
        ensures chosen { (seed words : ℕ) → self.old ≡ after_words seed words
            → (result ≡ chosen seed words choices) × (self.new ≡ after_words seed (words + words_for choices)) }
        ensures one { choices ≡ 1 → self.new ≡ self.old }
    {
        if choices < 2 {
            return 0;
        }
        word(&mut self.generator) % choices
    }
}

// The next word.
fn word(generator: &mut Lcg64Xsh32) -> u32
    ensures word { (seed words : ℕ) → generator.old ≡ after_words seed words → result ≡ draw seed words }
    ensures next { (seed words : ℕ) → generator.old ≡ after_words seed words → generator.new ≡ after_words seed (words + 1) }
{
    generator.next_word()
}

ghost use Rattle.c11_events.specs.Draws.{draw};
