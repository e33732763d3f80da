ghost use Rattle.std.specs.Prelude.{◌≡◌, ℕ, ◌<◌, ◌^◌, List, length};
ghost use Rattle.net_link.specs.Causes.{HasCause};
ghost use Rattle.net_link.specs.Sinks.{TakesTo, TookWithin};

/// The answer of [`Sink::write`].
#[derive(Clone, Copy, Debug, PartialEq, Eq)]
pub enum SinkTook {
    /// So many bytes of the piece were written, at least one.
    Took(usize),
    /// The write failed, and the count of faults rose.
    Failed,
}

/// Where bytes are written in order, as a report.
pub trait Sink {
    /// How often a write has failed.
    ghost faults: { Self → ℕ };

    /// Whether sinks of this type tell what was written.
    ghost tells: { Type 0 };

    /// The bytes that were written.
    ghost written: { Self → List ℕ };

    /// Writes the front of a piece that is not empty.
    fn write(&mut self, bytes: &[u8]) -> SinkTook
        requires { 0 < length bytes.now }
        ensures within { TookWithin bytes.now result }
        ensures cause { HasCause (faults self.old) (faults self.new) (result ≡ SinkTook.Failed) }
        ensures told { tells → TakesTo (written self.old) (written self.new) bytes.now result };

    /// A count of faults is below 2^64: a greater one would pass for risen whether or not it rose.
    ghost counts: { (sink : Self) → faults sink < 2 ^ 64 };
}
