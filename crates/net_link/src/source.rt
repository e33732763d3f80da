ghost use Rattle.std.specs.Prelude.{◌≡◌, ℕ, ◌<◌, ◌^◌, List, length};
ghost use Rattle.net_link.specs.Causes.{HasCause};
ghost use Rattle.net_link.specs.Sources.{Gives, GivesWithin};

/// The answer of [`Source::read`].
#[derive(Clone, Copy, Debug, PartialEq, Eq)]
pub enum SourceCame {
    /// So many bytes stand at the front of the piece, at least one.
    Got(usize),
    /// Nothing is left.
    End,
    /// The read failed, and the count of faults rose.
    Failed,
}

/// Bytes that are read in order, as a script.
pub trait Source {
    /// How often a read has failed.
    ghost faults: { Self → ℕ };

    /// Whether sources of this type tell what is left.
    ghost tells: { Type 0 };

    /// The bytes that no read has had.
    ghost left: { Self → List ℕ };

    /// Reads into a piece that is not empty.
    fn read(&mut self, into: &mut [u8]) -> SourceCame
        requires { 0 < length into.old }
        ensures within { GivesWithin into.new result }
        ensures cause { HasCause (faults self.old) (faults self.new) (result ≡ SourceCame.Failed) }
        ensures told { tells → Gives (left self.old) (left self.new) into.new result };

    /// A count of faults is below 2^64: a greater one would pass for risen whether or not it rose.
    ghost counts: { (source : Self) → faults source < 2 ^ 64 };
}
