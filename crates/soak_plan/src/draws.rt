ghost use Rattle.std.specs.Prelude.{◌≡◌};
ghost use Rattle.soak_plan.specs.Draws.{drawn, given};

use std::marker::Model;

/// What a state is multiplied by for the next one.
const FACTOR: u64 = 6_364_136_223_846_793_005;

/// What is added to it then.
const STEP: u64 = 1_442_695_040_888_963_407;

/// A generator of numbers: a state of 64 bits, from which each draw makes the next one (linear congruential).
#[derive(Debug, Drop)]
pub struct Draws {
    state: u64,
}

impl Model for Draws {
    ghost use Rattle.std.specs.Prelude.{ℕ};

    ghost Value = { ℕ };

    ghost view = { λ d. d.state };
}

impl Draws {
    /// The generator whose state is the seed.
    pub fn new(seed: u64) -> Draws
        ensures { result ≡ seed }
    {
        Draws { state: seed }
    }

    /// The next state, all its 64 bits. Its lower bits repeat soon: the lowest one alternates.
    pub fn word(&mut self) -> u64
        ensures word { result ≡ drawn self.old }
        ensures state { self.new ≡ drawn self.old }
    {
        self.state = self.state.wrapping_mul(FACTOR).wrapping_add(STEP);
        self.state
    }

    /// The upper 31 bits of the next state.
    pub fn draw(&mut self) -> u64
        ensures number { result ≡ given self.old }
        ensures state { self.new ≡ drawn self.old }
    {
        self.word() >> 33
    }
}
