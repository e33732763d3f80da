ghost use Rattle.std.specs.Prelude.{◌≡◌};
ghost use Rattle.trail_events.specs.Alone.{event_alone, last_of};
ghost use Rattle.trail_events.specs.Told.{check_tells, end_tells, offer_tells, reply_tells, settled_tells, why_of};

use cmd_outcome::ReplyResult;
use desk_trail::{CheckHow, Entry, OfferedHow, Step};
use drv_events::{Event, OutWhy};
use write_retry::{AttemptEnd, Unsent};

/// The event that one entry alone shows, where it shows one (SDAM Monitoring, Events; CMAP, Events; Command Monitoring, Events):
/// the last of those that the entry tells, but for a server that is named, of which it is that the server came into the topology.
///
/// A pool that is cleared shows none, since whether it was ready stands in the entries ahead (CMAP, PoolClearedEvent); nor does a
/// request, since what it is for stands in the trail's requests (Command Monitoring, CommandStartedEvent). An entry is taken to
/// name a place at which something stands.
pub fn event_of(step: &Step) -> Option<Event>
    ensures { result ≡ event_alone step.now.entry }
{
    match &step.entry {
        Entry::Named { host } => Some(Event::ServerOpened { host: *host }),
        Entry::Dropped { host } => Some(Event::ServerClosed { host: *host }),
        Entry::Offered { taken, .. } => of_offer(*taken),
        Entry::PoolReady { host } => Some(Event::PoolReady { host: *host }),
        Entry::PoolShut { host } => Some(Event::PoolClosed { host: *host }),
        Entry::CheckBegan { host, .. } => Some(Event::BeatStarted { host: *host }),
        Entry::CheckEnded { host, how } => Some(of_check(*host, *how)),
        Entry::Entered { op, host, .. } => Some(Event::OutStarted {
            host: *host,
            op: *op,
        }),
        Entry::Lent { op, host, conn } => Some(Event::CheckedOut {
            host: *host,
            conn: *conn,
            op: *op,
        }),
        Entry::Dialled { host, conn, .. } => Some(Event::ConnCreated {
            host: *host,
            conn: *conn,
        }),
        Entry::Settled {
            host,
            conn,
            stale,
            ..
        } => of_settled(*host, *conn, *stale),
        Entry::NotLent { op, host, why } => Some(Event::OutFailed {
            host: *host,
            op: *op,
            why: out_why(*why),
        }),
        Entry::CheckedIn { op, host, conn, .. } => Some(Event::CheckedIn {
            host: *host,
            conn: *conn,
            op: *op,
        }),
        Entry::ConnShut { host, conn, reason } => Some(Event::ConnClosed {
            host: *host,
            conn: *conn,
            reason: *reason,
        }),
        Entry::Ended { op, end } => of_end(*op, *end),
        _ => None,
    }
}

/// Of an event that was offered to the topology.
fn of_offer(taken: OfferedHow) -> Option<Event>
    ensures { result ≡ last_of (offer_tells taken) }
{
    match taken {
        OfferedHow::Accepted { differs } if differs => Some(Event::TopologyChanged),
        _ => None,
    }
}

/// Of a check that ended, the last of what it tells.
pub(crate) fn of_check(host: u32, how: CheckHow) -> Event
    ensures { last_of (check_tells host how) ≡ Some result }
{
    match how {
        CheckHow::Reply { sample } => Event::BeatSucceeded {
            host,
            micros: sample,
        },
        _ => Event::BeatFailed { host },
    }
}

/// Of a connection whose greeting was answered.
fn of_settled(host: u32, conn: u64, stale: bool) -> Option<Event>
    ensures { result ≡ last_of (settled_tells host conn stale) }
{
    if stale {
        return None;
    }
    Some(Event::ConnReady { host, conn })
}

/// Why a command got no connection, in the words of events.
fn out_why(unsent: Unsent) -> OutWhy
    ensures { result ≡ why_of unsent }
{
    match unsent {
        Unsent::PoolClosed { .. } => OutWhy::Closed,
        Unsent::PoolCleared { .. } => OutWhy::Cleared,
        Unsent::PoolLate => OutWhy::Late,
        Unsent::Dial { .. } | Unsent::Greeting { .. } | Unsent::TooLarge { .. } =>
            OutWhy::Connection,
    }
}

/// Of an attempt that ended.
fn of_end(op: u32, end: AttemptEnd) -> Option<Event>
    ensures { result ≡ last_of (end_tells op end) }
{
    match end {
        AttemptEnd::Replied(reading) => Some(of_reply(op, reading.result)),
        AttemptEnd::Unsent(_) => None,
        AttemptEnd::Cut | AttemptEnd::Fault | AttemptEnd::TimedOut | AttemptEnd::Bad { .. } => Some(
            Event::CommandFailed { op },
        ),
    }
}

/// Of a reply to a command.
fn of_reply(op: u32, reply: ReplyResult) -> Event
    ensures { result ≡ reply_tells op reply }
{
    match reply {
        ReplyResult::Error { .. } => Event::CommandFailed { op },
        _ => Event::CommandSucceeded { op },
    }
}
