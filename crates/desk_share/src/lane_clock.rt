use net_link::{Clock, TickClock};

/// What a command waits for.
#[derive(Clone, Copy, Debug, PartialEq, Eq, Drop)]
pub enum Waits {
    /// A server that fits (Server Selection).
    Server,
    /// A connection of that host's pool, in whose line it stands (CMAP, Checking Out a Connection).
    Line {
        /// The host's number.
        host: u32,
    },
    /// What comes on the connection of which the client's net was last asked.
    Stream,
}

/// A clock by which lanes rest. Its type may end a lane's rest as soon as something happened that the lane's command may wait for: what
/// came of each step is told to it ahead of the client's next step. As the functions stand here a rest lasts its time.
pub trait LaneClock: Clock {
    /// What the lane's command waits for behind its step; None where it goes on or was answered. Another thread may have taken the step
    /// while the lane rests: where the command waits for something else now, or no more, that rest is to end. Lane 0 stands for checks,
    /// which wait for nothing that is told.
    fn note_step(&self, _lane: u32, _waits: Option<Waits>) {}

    /// The lane stands first in the line that its command waits in, and may go on: its rest is to end.
    fn note_line(&self, _lane: u32) {}

    /// The topology may be another one, or a pool was made ready.
    fn note_servers(&self) {}

    /// The client is unlocked: now is the time to wake whoever is to go on.
    fn note_free(&self) {}

    /// A lane ran its last command. It is told outside the client's lock; whoever rests by [`rest`](Clock::rest) may have nothing left to do.
    fn note_end(&self) {}

    /// Lets so many microseconds go by, or less, for a lane whose command waits, as it was last told.
    fn rest_of(&self, _lane: u32, micros: u64) {
        self.rest(micros);
    }
}

impl LaneClock for TickClock {}
