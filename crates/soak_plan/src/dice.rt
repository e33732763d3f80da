ghost use Rattle.std.specs.Prelude.{◌≡◌, ◌+◌, ◌%◌, ◌^◌};
ghost use Rattle.soak_plan.specs.Draws.{drawn};

use crate::Draws;
use net_link::Dice;
use std::marker::Model;

/// Dice that roll one state after another of a generator of their own, which begins with the seed plus one.
#[derive(Debug, Drop)]
pub struct SeedDice {
    draws: Draws,
}

impl Model for SeedDice {
    ghost use Rattle.std.specs.Prelude.{ℕ};

    ghost Value = { ℕ };

    ghost view = { λ d. d.draws };
}

impl SeedDice {
    /// The dice of a seed.
    pub fn new(seed: u64) -> SeedDice
        ensures { result ≡ (seed + 1) % 2 ^ 64 }
    {
        SeedDice {
            draws: Draws::new(seed.wrapping_add(1)),
        }
    }
}

impl Dice for SeedDice {
    ghost rolls = { λ _. Unit {0} };

    fn word(&mut self) -> u64
        ensures word { result ≡ drawn self.old }
        ensures state { self.new ≡ drawn self.old }
    {
        self.draws.word()
    }
}
