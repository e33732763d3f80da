ghost use Rattle.std.specs.Prelude.{◌≡◌, ◌⊎◌};

/// How long a rest lasts at most in the first turns of a wait, and how long later, in microseconds (own).
const SHORT_REST: u64 = 1_000;

const LONG_REST: u64 = 10_000;

/// How many turns of a wait have short rests (own).
const SHORT_TURNS: u64 = 10;

/// A wait: until when, and how many rests it had. It begins anew where it waits until another moment.
#[derive(Clone, Copy, Debug, PartialEq, Eq, Drop)]
pub struct Patience {
    until: u64,
    turns: u64,
}

impl Patience {
    /// It did not wait yet.
    pub fn new() -> Patience {
        Patience { until: 0, turns: 0 }
    }

    /// How long it rests this time, where it waits until that moment: 1,000 microseconds or 10,000.
    pub fn next_rest(&mut self, until: u64) -> u64
        ensures { (result ≡ 1000) ⊎ (result ≡ 10000) }
    {
        if until != self.until {
            self.until = until;
            self.turns = 0;
        }
        self.turns = self.turns.saturating_add(1);
        if self.turns <= SHORT_TURNS {
            SHORT_REST
        } else {
            LONG_REST
        }
    }
}
