use crate::Outcome;
use cmd_outcome::Reading;

/// What comes of what an `OpMachine` asked for.
#[derive(Clone, Copy, Debug, PartialEq, Eq, Drop)]
pub enum OpEvent {
    /// A selection chose a server.
    Chosen {
        /// The server's number.
        host: u32,
        /// Whether a retryable write draws a transaction number there: retryable writes are on, the server is no
        /// standalone, and there are sessions (Retryable Writes, supported server versions).
        numbered: bool,
    },
    /// A selection found no suitable server in time.
    NoServer,
    /// A selection found a server that speaks no wire version of this client.
    Incompatible {
        /// The server's number.
        host: u32,
        /// Its minWireVersion.
        min: i32,
        /// Its maxWireVersion.
        max: i32,
    },
    /// The attempt ended before its request was queued.
    Unsent(Unsent),
    /// A connection was checked out.
    Lent,
    /// All of the request is out.
    Sent,
    /// The reply came, and says this.
    Replied(Reading),
    /// The peer ended the stream before the reply was whole.
    Cut,
    /// A call of the net failed.
    Fault,
    /// No whole reply came in time.
    TimedOut,
    /// What came is no reply to the request.
    Bad {
        /// The place in the message that is at fault.
        at: u32,
    },
}

/// Why an attempt's request was not sent.
#[derive(Clone, Copy, Debug, PartialEq, Eq, Drop)]
pub enum Unsent {
    /// No connection became free in time (CMAP, waitQueueTimeoutMS).
    PoolLate,
    /// The pool was cleared (CMAP, PoolClearedError).
    PoolCleared {
        /// The pool's generation.
        generation: u64,
    },
    /// The pool was closed (CMAP, PoolClosedError).
    PoolClosed {
        /// The number of the pool's server.
        host: u32,
    },
    /// The connection could not be made, or ended, failed or was late before its greeting was answered.
    Dial {
        /// The greeting's answer was no message.
        bad: bool,
    },
    /// The server refused the connection's greeting.
    Greeting {
        /// The refusal's code, 0 where it has none.
        code: i32,
    },
    /// The command is larger than the server takes.
    TooLarge {
        /// How many bytes it has.
        size: u64,
        /// How many bytes it may have.
        most: u64,
    },
}

/// What is to be done next for a command.
#[derive(Clone, Copy, Debug, PartialEq, Eq, Drop)]
pub enum Next {
    /// Select a server: answered by `Chosen`, `NoServer` or `Incompatible`.
    Select,
    /// Check a connection to this server out: answered by `Lent`, or by `Unsent` with anything but a size.
    CheckOut {
        /// The server's number.
        host: u32,
    },
    /// Send the command: answered by `Sent`, by `Fault` or `TimedOut`, or by `Unsent` with a size.
    Send,
    /// Read the reply: answered by `Replied`, `Cut`, `Fault`, `TimedOut` or `Bad`.
    Read,
    /// Nothing: this is what the command came to.
    Answer(Outcome),
}
