ghost use Rattle.std.specs.Prelude.{ℕ, ◌≡◌, ◌+◌, ◌-◌, ◌^◌};

/// Moments, in microseconds.
pub trait Clock {
    /// Whether clocks of this type show a moment. A caller knows a moment that passes only from a call of `now`.
    ghost shows: { ℕ → Type 0 };

    /// A moment that passes the type's test.
    fn now(&self) -> u64
        ensures { shows result };

    /// Lets so many microseconds go by. It may wait.
    fn rest(&self, micros: u64);
}
