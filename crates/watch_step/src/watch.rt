ghost use Rattle.std.specs.Prelude.{◌≡◌, ◌≤◌, ◌+◌, ◌^◌, None, IsSome, is_some};
ghost use Rattle.entry_judge.specs.Groups.{Goes};
ghost use Rattle.watch_step.specs.Checks.{IsInRange, first_check, soonest_check};
ghost use Rattle.watch_step.specs.Entries.{Asked, Began, Ended, checks_judge};

use std::marker::Model;

/// Half a second, in microseconds: checks of one server that are asked for begin no sooner behind the last one's end
/// (Server Monitoring, minHeartbeatFrequencyMS).
pub const HALF_SECOND: u64 = 500_000;

/// The greatest moment, in microseconds.
pub const LAST_MOMENT: u64 = 1 << 62;

/// The longest interval of checks, in microseconds.
pub const LONGEST_BEAT: u64 = 1 << 42;

/// The checks of one server. To contracts it is the interval, the moment at which a check is due, when the check that runs
/// began, and when the last one ended. No call takes memory.
///
/// ```text
///            begin                  end
///   waits ----------> a check runs -----> waits
///    | ^
///    +-+ ask
/// ```
#[derive(Debug, Drop)]
pub struct Watch {
    beat: u64,
    due: u64,
    began: Option<u64>,
    ended: Option<u64>,
}

impl Model for Watch {
    ghost use Rattle.watch_step.specs.Checks.{Checks};
    ghost use Rattle.watch_step.specs.Inside.{checks_of, IsBounded};

    ghost Value = { Checks };

    ghost view = { checks_of };

    ghost invariant = { IsBounded };
}

impl Watch {
    /// A server that was never checked, from a moment on: its first check is due at once. Checks that nobody asks for begin
    /// `beat_micros` behind the last one's end (heartbeatFrequencyMS), which is at most [`LONGEST_BEAT`].
    pub fn new(beat_micros: u64, moment: u64) -> Watch
        requires beat { beat_micros ≤ 2 ^ 42 }
        requires moment { moment ≤ 2 ^ 62 }
        ensures first { result ≡ first_check beat_micros moment }
    {
        Watch {
            beat: beat_micros,
            due: moment,
            began: None,
            ended: None,
        }
    }

    /// The moment at which the next check is due, in microseconds; while one runs, that at which it was due.
    pub fn due(&self) -> u64
        ensures due { result ≡ self.now.due }
        ensures bound { result ≤ 2 ^ 62 + 2 ^ 42 }
    {
        self.due
    }

    /// Whether a check runs.
    pub fn running(&self) -> bool
        ensures running { result ≡ is_some self.now.began }
    {
        self.began.is_some()
    }

    /// When the check that runs began; None where none runs.
    pub fn began(&self) -> Option<u64>
        ensures began { result ≡ self.now.began }
        ensures bound { IsInRange result }
    {
        self.began
    }

    /// When the last check ended; None where none did.
    pub fn ended(&self) -> Option<u64>
        ensures ended { result ≡ self.now.ended }
        ensures bound { IsInRange result }
    {
        self.ended
    }

    /// A check begins. None runs.
    pub fn begin(&mut self, moment: u64)
        requires idle { self.old.began ≡ None }
        requires moment { moment ≤ 2 ^ 62 }
        ensures goes { Goes checks_judge self.old moment Began self.new }
    {
        self.began = Some(moment);
    }

    /// The check that runs ends; `again` says that the next one is due at once.
    pub fn end(&mut self, moment: u64, again: bool)
        requires running { IsSome self.old.began }
        requires moment { moment ≤ 2 ^ 62 }
        ensures goes { Goes checks_judge self.old moment (Ended again) self.new }
    {
        self.ended = Some(moment);
        self.began = None;
        self.due = if again { moment } else { moment + self.beat };
    }

    /// Somebody waits for the server: where no check runs, one is due at once, but half a second behind the last one's end
    /// at the soonest, unless it is due sooner.
    pub fn ask(&mut self, moment: u64)
        requires moment { moment ≤ 2 ^ 62 }
        ensures goes { Goes checks_judge self.old moment Asked self.new }
    {
        if self.began.is_none() {
            self.due = self.due.min(soonest(self.ended, moment));
        }
    }
}

/// The soonest moment for a check that is asked for at a moment.
fn soonest(ended: Option<u64>, moment: u64) -> u64
    requires moment { moment ≤ 2 ^ 62 }
    requires ended { IsInRange ended }
    ensures { result ≡ soonest_check ended moment }
{
    match ended {
        Some(ended) => moment.max(ended + HALF_SECOND),
        None => moment,
    }
}
