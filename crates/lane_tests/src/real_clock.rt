use desk_share::LaneClock;
use net_link::Clock;
use std::time;
use std::time::Duration;

/// The machine's clock.
#[derive(Drop)]
pub struct RealClock<'a, R: time::Clock> {
    rt: &'a R,
}

impl<'a, R: time::Clock> RealClock<'a, R> {
    pub fn new(rt: &'a R) -> RealClock<'a, R> {
        RealClock { rt }
    }
}

impl<'a, R: time::Clock> Clock for RealClock<'a, R> {
    ghost shows = { λ _. Unit {0} };

    /// The moment in microseconds, 0 where the machine tells none.
    fn now(&self) -> u64 {
        match self.rt.monotonic() {
            Ok(since) => u64::try_from(since.as_micros()).unwrap_or(u64::MAX),
            Err(_) => 0,
        }
    }

    fn rest(&self, micros: u64) {
        self.rt.sleep(Duration::from_micros(micros));
    }
}

impl<'a, R: time::Clock> LaneClock for RealClock<'a, R> {}
