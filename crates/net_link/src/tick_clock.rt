use crate::Clock;
use std::sync::atomic::{AtomicU64, Ordering};

/// A clock in memory that goes on by a step at each look, and that threads may share. What an atomic holds is in no contract.
///
/// Of two additions that threads make at once one may be lost, so that no call has to try again.
#[derive(Drop)]
pub struct TickClock {
    moment: AtomicU64,
    step: u64,
}

impl TickClock {
    /// A clock whose first look gives `start`. Each look adds `step` microseconds behind its answer.
    pub fn new(start: u64, step: u64) -> TickClock {
        TickClock {
            moment: AtomicU64::new(start),
            step,
        }
    }

    /// Adds microseconds, up to the greatest number, to a moment that was read.
    fn add(&self, now: u64, micros: u64) {
        self.moment
            .store(now.saturating_add(micros), Ordering::SeqCst);
    }
}

impl Clock for TickClock {
    ghost shows = { λ _. Unit {0} };

    fn now(&self) -> u64 {
        let now = self.moment.load(Ordering::SeqCst);
        self.add(now, self.step);
        now
    }

    /// Adds the microseconds at once.
    fn rest(&self, micros: u64) {
        self.add(self.moment.load(Ordering::SeqCst), micros);
    }
}
