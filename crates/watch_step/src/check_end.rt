ghost use Rattle.std.specs.Prelude.{◌≡◌};
ghost use Rattle.watch_step.specs.Ends.{is_again as is_due_again};

/// How a check of a server ended (Server Monitoring, Network or command error during server check).
#[derive(Clone, Copy, Debug, PartialEq, Eq, Drop)]
pub enum CheckEnd {
    /// A reply to the hello came, whose `ok` is one.
    Reply,
    /// A reply came that is an error or is no hello reply.
    Refused,
    /// The peer ended the stream.
    Cut,
    /// A call of the net failed.
    Fault,
    /// No reply came in time.
    Late,
    /// What came is no message, or answers another request.
    Bad,
    /// No stream could be made.
    NoDial,
}

impl CheckEnd {
    /// Whether the next check is due at once: behind a network error or a timeout of a server that was known, and behind
    /// nothing else.
    pub fn is_again(self, known: bool) -> bool
        ensures again { result ≡ is_due_again self known }
    {
        known && matches!(&self, CheckEnd::Cut | CheckEnd::Fault | CheckEnd::Late)
    }
}
