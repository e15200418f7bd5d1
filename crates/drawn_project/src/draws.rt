//! Numbers that are drawn one after the other.

ghost use Rattle.std.specs.Prelude.{◌≡◌, ◌<◌};
ghost use Rattle.drawn_project.specs.Draws.{draw, next_word};

use std::marker::Model;

/// The word off which the next number is drawn. Words follow one another as in the generator of Knuth's MMIX.
#[derive(Drop)]
pub struct Draws {
    word: u64,
}

impl Model for Draws {
    ghost use Rattle.std.specs.Prelude.{ℕ};

    ghost Value = { ℕ };

    ghost view = { λ draws. draws.word };
}

fn next_word(word: u64) -> u64
    ensures { result ≡ next_word word }
{
    word.wrapping_mul(6_364_136_223_846_793_005)
        .wrapping_add(1_442_695_040_888_963_407)
}

impl Draws {
    pub fn new(seed: u64) -> Draws
        ensures { result ≡ seed }
    {
        Draws { word: seed }
    }

    /// A number below the bound.
    pub fn draw(&mut self, bound: u64) -> u64
        requires { 0 < bound }
        ensures drawn { (result, self.new) ≡ draw bound self.old }
        ensures below { result < bound }
    {
        self.word = next_word(self.word);
        (self.word >> 33) % bound
    }
}
