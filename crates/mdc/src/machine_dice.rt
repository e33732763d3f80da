use net_link::Dice;
use rand::rngs::StdRng;
use rand_core::Rng;
use std::io;
use std::random::RandomSource;

/// Words of a generator whose seed the system drew.
#[derive(Drop)]
pub struct MachineDice {
    generator: StdRng,
}

impl MachineDice {
    /// Dice of a fresh seed. An error where the system gives none.
    pub fn new<S: RandomSource>(source: &S) -> io::Result<MachineDice> {
        let generator = rand::make_rng(source)?;
        Ok(MachineDice { generator })
    }
}

impl Dice for MachineDice {
    ghost rolls = { λ _. Unit {0} };

    fn word(&mut self) -> u64 {
        self.generator.next_u64()
    }
}
