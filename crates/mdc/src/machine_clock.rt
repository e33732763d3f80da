use crate::socket_watch::SocketWatch;
use desk_share::{LaneClock, Waits};
use net_link::Clock;
use std::net::Net as Sockets;
use std::sync::Wait;
use std::time;
use std::time::Duration;

/// The machine's clock, which never goes back. Its moments count from a start of the machine's own.
#[derive(Drop)]
pub struct MachineClock<'a, R: time::Clock + Wait> {
    rt: &'a R,
    watch: &'a SocketWatch,
}

impl<'a, R: time::Clock + Wait> MachineClock<'a, R> {
    /// A clock whose rests end early when a watched socket is ready.
    pub fn new(rt: &'a R, watch: &'a SocketWatch) -> MachineClock<'a, R> {
        MachineClock { rt, watch }
    }
}

impl<'a, R: time::Clock + Wait> Clock for MachineClock<'a, R> {
    ghost shows = { λ _. Unit {0} };

    /// The moment in microseconds, 0 where the machine tells none.
    fn now(&self) -> u64 {
        match self.rt.monotonic() {
            Ok(since) => u64::try_from(since.as_micros()).unwrap_or(u64::MAX),
            Err(_) => 0,
        }
    }

    /// Gives control back as soon as one of the run's sockets is ready, at the latest after the time given.
    fn rest(&self, micros: u64) {
        self.watch.rest(self.rt, Duration::from_micros(micros));
    }
}

impl<'a, R: time::Clock + Sockets + Wait> LaneClock for MachineClock<'a, R> {
    fn note_step(&self, lane: u32, waits: Option<Waits>) {
        self.watch.note_step(self.rt, lane, waits);
    }

    fn note_line(&self, lane: u32) {
        self.watch.note_line(self.rt, lane);
    }

    fn note_servers(&self) {
        self.watch.note_servers(self.rt);
    }

    fn note_free(&self) {
        self.watch.wake_lanes();
    }

    fn note_end(&self) {
        self.watch.wake();
    }

    fn rest_of(&self, lane: u32, micros: u64) {
        self.watch
            .rest_of(self.rt, lane, Duration::from_micros(micros));
    }
}
