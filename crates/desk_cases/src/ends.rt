//! How attempts end and what commands are answered, in words.
use crate::hosts::push_host;
use crate::log::Log;
use case_files::Memory;
use cmd_outcome::{Reading, ReplyResult, StateChange};
use desk_trail::Entry;
use write_retry::{AttemptEnd, Outcome, Unsent};

/// The entries `Ended op=N END` and `Finished op=N OUTCOME`:
///
/// - END is `Replied RESULT`, with `retryable` and `no_writes` behind it where the reply has those labels, `state=CODE` or
///   `shutdown=CODE` where it is a state change error, and `version=COUNTER`; or `Cut`, `Fault`, `TimedOut`, `Bad at=N`, or
///   `Unsent WHY` with WHY as [`push_unsent`] says;
/// - RESULT, and OUTCOME where there is one of a reply, is `ok n=N modified=N`, `error code=N`, `write_errors count=N first=CODE` or
///   `concern code=N`; another OUTCOME is `network`, `late`, `bad_reply at=N`, `no_server`, `incompatible HOST min=N max=N`,
///   `pool_timeout`, `pool_cleared generation=N`, `pool_closed HOST` or `too_large size=N most=N`.
///
/// False of other entries.
pub fn push_answer(line: &mut String, log: &Log<'_>, entry: &Entry) -> Result<bool, Memory> {
    match entry {
        Entry::Ended { op, end } => {
            write!(line, "Ended op={op}")?;
            push_end(line, log, end)?;
        }
        Entry::Finished { op, outcome } => {
            write!(line, "Finished op={op}")?;
            push_outcome(line, log, *outcome)?;
        }
        _ => return Ok(false),
    }
    Ok(true)
}

fn push_end(line: &mut String, log: &Log<'_>, end: &AttemptEnd) -> Result<(), Memory> {
    match end {
        AttemptEnd::Replied(reading) => push_reading(line, reading),
        AttemptEnd::Cut => line.push_str(" Cut"),
        AttemptEnd::Fault => line.push_str(" Fault"),
        AttemptEnd::TimedOut => line.push_str(" TimedOut"),
        AttemptEnd::Bad { at } => write!(line, " Bad at={at}"),
        AttemptEnd::Unsent(why) => {
            line.push_str(" Unsent")?;
            push_unsent(line, log, *why)
        }
    }
}

fn push_reading(line: &mut String, reading: &Reading) -> Result<(), Memory> {
    line.push_str(" Replied")?;
    push_result(line, reading.result)?;
    if reading.retryable {
        line.push_str(" retryable")?;
    }
    if reading.no_writes {
        line.push_str(" no_writes")?;
    }
    push_state(line, reading.state)?;
    match reading.version {
        Some(version) => write!(line, " version={}", version.counter),
        None => Ok(()),
    }
}

fn push_state(line: &mut String, state: Option<StateChange>) -> Result<(), Memory> {
    match state {
        Some(change) if change.shutdown => write!(line, " shutdown={}", change.code),
        Some(change) => write!(line, " state={}", change.code),
        None => Ok(()),
    }
}

fn push_result(line: &mut String, reply: ReplyResult) -> Result<(), Memory> {
    match reply {
        ReplyResult::Ok { n, modified } => write!(line, " ok n={n} modified={modified}"),
        ReplyResult::WriteErrors { count, first } => {
            write!(line, " write_errors count={count} first={first}")
        }
        ReplyResult::Concern { code } => write!(line, " concern code={code}"),
        ReplyResult::Error { code } => write!(line, " error code={code}"),
    }
}

/// Why a request was not sent: ` PoolLate`, ` PoolCleared generation=N`, ` PoolClosed HOST`, ` Dial`, ` Dial bad` where its greeting's
/// answer was none, ` Greeting code=N`, ` TooLarge size=N most=N`.
pub fn push_unsent(line: &mut String, log: &Log<'_>, why: Unsent) -> Result<(), Memory> {
    match why {
        Unsent::PoolLate => line.push_str(" PoolLate"),
        Unsent::PoolCleared { generation } => write!(line, " PoolCleared generation={generation}"),
        Unsent::PoolClosed { host } => {
            line.push_str(" PoolClosed ")?;
            push_host(line, log, host)
        }
        Unsent::Dial { bad: true } => line.push_str(" Dial bad"),
        Unsent::Dial { bad: false } => line.push_str(" Dial"),
        Unsent::Greeting { code } => write!(line, " Greeting code={code}"),
        Unsent::TooLarge { size, most } => write!(line, " TooLarge size={size} most={most}"),
    }
}

fn push_outcome(line: &mut String, log: &Log<'_>, outcome: Outcome) -> Result<(), Memory> {
    match outcome {
        Outcome::Ok { n, modified } => write!(line, " ok n={n} modified={modified}"),
        Outcome::Error { code } => write!(line, " error code={code}"),
        Outcome::WriteErrors { count, first } => {
            write!(line, " write_errors count={count} first={first}")
        }
        Outcome::Concern { code } => write!(line, " concern code={code}"),
        Outcome::Network => line.push_str(" network"),
        Outcome::Late => line.push_str(" late"),
        Outcome::BadReply { at } => write!(line, " bad_reply at={at}"),
        _ => push_unasked(line, log, outcome),
    }
}

/// What a command was answered that no server was asked.
fn push_unasked(line: &mut String, log: &Log<'_>, outcome: Outcome) -> Result<(), Memory> {
    match outcome {
        Outcome::NoServer => line.push_str(" no_server"),
        Outcome::Incompatible { host, min, max } => {
            line.push_str(" incompatible ")?;
            push_host(line, log, host)?;
            write!(line, " min={min} max={max}")
        }
        Outcome::PoolTimeout => line.push_str(" pool_timeout"),
        Outcome::PoolCleared { generation } => write!(
            line,
            " pool_cleared generation={generation}"
        ),
        Outcome::PoolClosed { host } => {
            line.push_str(" pool_closed ")?;
            push_host(line, log, host)
        }
        Outcome::TooLarge { size, most } => write!(line, " too_large size={size} most={most}"),
        _ => line.push_str(" another"),
    }
}
