// Pseudo-random numbers.

ghost use Rattle.std.specs.Prelude.{◌≡◌, ◌<◌, ◌^◌};
ghost use Rattle.zc_base.specs.Draws.{drawn, stepped};

use std::marker::Model;

/// A pseudo-random number generator: linear congruential modulo 2^64, with the upper 31 bits as output.
/// The same seed gives the same numbers.
#[derive(Drop)]
pub struct Draws {
    state: u64,
}

impl Model for Draws {
    ghost use Rattle.std.specs.Prelude.{ℕ};

    ghost Value = { ℕ };

    ghost view = { λ d. d.state };
}

impl Draws {
    /// The generator with this seed.
    pub fn new(number: u64) -> Draws
        ensures { result ≡ number }
    {
        Draws { state: number }
    }

    /// The next number.
    #[tactic(auto, unfolding(crate::specs::Draws::stepped))]
    pub fn next(&mut self) -> u32
        ensures value { result ≡ drawn self.new }
        ensures after { self.new ≡ stepped self.old }
        ensures small { result < 2 ^ 31 }
    {
        self.state = self
            .state
            .wrapping_mul(6_364_136_223_846_793_005)
            .wrapping_add(1_442_695_040_888_963_407);
        (self.state >> 33) as u32
    }
}
