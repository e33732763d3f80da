ghost use Rattle.std.specs.Prelude.{◌≡◌};
ghost use Rattle.write_retry.specs.Outcomes.{is_ok, said_by};

use cmd_outcome::ReplyResult;

/// What one command came to.
#[derive(Clone, Copy, Debug, PartialEq, Eq, Drop)]
pub enum Outcome {
    /// The command was carried out.
    Ok {
        /// How many documents it concerned.
        n: i64,
        /// How many documents were modified.
        modified: i64,
    },
    /// The server refused the command.
    Error {
        /// The error's code, 0 where it has none.
        code: i32,
    },
    /// The command was carried out, and some of its writes were refused.
    WriteErrors {
        /// How many were refused.
        count: u32,
        /// The first one's code, 0 where it has none.
        first: i32,
    },
    /// The command was carried out, and its write concern was not met.
    Concern {
        /// The write concern error's code, 0 where it has none.
        code: i32,
    },
    /// The connection could not be made, or ended or failed before a whole reply came.
    Network,
    /// No whole reply came in time.
    Late,
    /// What came is no reply to the request.
    BadReply {
        /// The place in the message that is at fault.
        at: u32,
    },
    /// No suitable server was found in time.
    NoServer,
    /// A server speaks no wire version of this client.
    Incompatible {
        /// The server's number.
        host: u32,
        /// Its minWireVersion.
        min: i32,
        /// Its maxWireVersion.
        max: i32,
    },
    /// No connection of the pool became free in time.
    PoolTimeout,
    /// The pool was cleared while the command waited for a connection.
    PoolCleared {
        /// The pool's generation.
        generation: u64,
    },
    /// The pool was closed while the command waited for a connection.
    PoolClosed {
        /// The number of the pool's server.
        host: u32,
    },
    /// The command is larger than its server takes, and was not sent.
    TooLarge {
        /// How many bytes it has.
        size: u64,
        /// How many bytes it may have.
        most: u64,
    },
}

impl Outcome {
    /// What a command came to whose reply says that.
    pub fn said_by(reply: ReplyResult) -> Outcome
        ensures said { result ≡ said_by reply }
    {
        match reply {
            ReplyResult::Ok { n, modified } => Outcome::Ok { n, modified },
            ReplyResult::WriteErrors { count, first } => Outcome::WriteErrors { count, first },
            ReplyResult::Concern { code } => Outcome::Concern { code },
            ReplyResult::Error { code } => Outcome::Error { code },
        }
    }

    /// Whether the command was carried out, and nothing qualifies it.
    pub fn is_ok(&self) -> bool
        ensures ok { result ≡ is_ok self.now }
    {
        matches!(self, Outcome::Ok { .. })
    }
}
