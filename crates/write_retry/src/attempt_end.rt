ghost use Rattle.std.specs.Prelude.{◌≡◌};
ghost use Rattle.write_retry.specs.Verdict.{is_again as is_end_again, is_lesser as is_end_lesser, is_unsent_again, said as said_of_end, said_unsent};

use crate::{Outcome, Unsent};
use cmd_outcome::{Reading, state_change};

/// How an attempt of a command ended.
#[derive(Clone, Copy, Debug, PartialEq, Eq, Drop)]
pub enum AttemptEnd {
    /// The reply came, and says this.
    Replied(Reading),
    /// The peer ended the stream before the reply was whole.
    Cut,
    /// A call of the net failed.
    Fault,
    /// No whole reply came in time.
    TimedOut,
    /// What came is no reply to the request.
    Bad {
        /// The place in the message that is at fault.
        at: u32,
    },
    /// The request was not sent.
    Unsent(Unsent),
}

impl AttemptEnd {
    /// What the command came to by this attempt alone.
    pub fn said(&self) -> Outcome
        ensures said { result ≡ said_of_end self.now }
    {
        match *self {
            AttemptEnd::Replied(reading) => Outcome::said_by(reading.result),
            AttemptEnd::Cut | AttemptEnd::Fault => Outcome::Network,
            AttemptEnd::TimedOut => Outcome::Late,
            AttemptEnd::Bad { at } => Outcome::BadReply { at },
            AttemptEnd::Unsent(unsent) => said_of_unsent(unsent),
        }
    }

    /// Whether the attempt may be repeated, of a command that drew a transaction number (Retryable Writes, Determining
    /// Retryable Errors).
    pub fn is_again(&self) -> bool
        ensures again { result ≡ is_end_again self.now }
    {
        match *self {
            AttemptEnd::Replied(reading) => reading.retryable,
            AttemptEnd::Cut | AttemptEnd::Fault | AttemptEnd::TimedOut => true,
            AttemptEnd::Bad { .. } => false,
            AttemptEnd::Unsent(unsent) => is_again_unsent(unsent),
        }
    }

    /// Whether the end of a second attempt says less than the first one's: it was not sent, or its reply says that nothing
    /// was written (Retryable Writes, NoWritesPerformed).
    pub fn is_lesser(&self) -> bool
        ensures lesser { result ≡ is_end_lesser self.now }
    {
        match *self {
            AttemptEnd::Replied(reading) => reading.no_writes,
            AttemptEnd::Unsent(_) => true,
            _ => false,
        }
    }
}

/// What a request says that was not sent.
fn said_of_unsent(unsent: Unsent) -> Outcome
    ensures { result ≡ said_unsent unsent }
{
    match unsent {
        Unsent::PoolLate => Outcome::PoolTimeout,
        Unsent::PoolCleared { generation } => Outcome::PoolCleared { generation },
        Unsent::PoolClosed { host } => Outcome::PoolClosed { host },
        Unsent::Dial { .. } => Outcome::Network,
        Unsent::Greeting { code } => Outcome::Error { code },
        Unsent::TooLarge { size, most } => Outcome::TooLarge { size, most },
    }
}

/// Whether a request that was not sent may be sent to another server.
fn is_again_unsent(unsent: Unsent) -> bool
    ensures { result ≡ is_unsent_again unsent }
{
    match unsent {
        Unsent::PoolCleared { .. } | Unsent::Dial { .. } => true,
        Unsent::Greeting { code } => state_change(code).is_some(),
        Unsent::PoolLate | Unsent::PoolClosed { .. } | Unsent::TooLarge { .. } => false,
    }
}
