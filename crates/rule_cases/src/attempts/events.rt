//! Events in words. Each is one word, with colons between its parts and a plus ahead of each label:
//!
//! - of a selection `chosen:HOST:numbered` or `chosen:HOST:plain`, `no_server`, `incompatible:HOST:MIN:MAX`;
//! - of a check-out `lent`, `pool_late`, `pool_cleared:GENERATION`, `pool_closed:HOST`, `dial`, `dial:bad`, `greeting:CODE`;
//! - of sending `sent`, `too_large:SIZE:MOST`, `fault`, `timed_out`;
//! - of reading `cut`, `fault`, `timed_out`, `bad:AT`, and a reply `ok:N:MODIFIED`, `write_errors:COUNT:FIRST`,
//!   `concern:CODE` or `error:CODE`, with `+retryable` and `+no_writes`.
use case_files::{CaseFault, parsed};
use cmd_outcome::{Reading, ReplyResult};
use std::alloc::Global;
use std::str::FromStr;
use write_retry::{OpEvent, Unsent};

/// The event of that word.
pub fn event_of(alloc: Global, word: &str) -> Result<OpEvent, CaseFault> {
    let (event, labels) = word.split_once('+').unwrap_or((word, ""));
    if let Some(event) = plain_event(event) {
        return Ok(event);
    }
    let (name, parts) = event.split_once(':').unwrap_or((event, ""));
    if let Some(unsent) = unsent_of(alloc, name, parts)? {
        return Ok(OpEvent::Unsent(unsent));
    }
    if let Some(said) = said_of(alloc, name, parts)? {
        return Ok(OpEvent::Replied(reading_of(alloc, said, labels)?));
    }
    look_of(alloc, name, parts)
}

/// The event of a word without parts.
fn plain_event(word: &str) -> Option<OpEvent> {
    match word {
        "no_server" => Some(OpEvent::NoServer),
        "lent" => Some(OpEvent::Lent),
        "sent" => Some(OpEvent::Sent),
        "cut" => Some(OpEvent::Cut),
        "fault" => Some(OpEvent::Fault),
        "timed_out" => Some(OpEvent::TimedOut),
        "pool_late" => Some(OpEvent::Unsent(Unsent::PoolLate)),
        _ => None,
    }
}

/// Why a request was not sent.
fn unsent_of(alloc: Global, name: &str, parts: &str) -> Result<Option<Unsent>, CaseFault> {
    let unsent = match name {
        "pool_cleared" => Unsent::PoolCleared {
            generation: parsed(alloc, parts)?,
        },
        "pool_closed" => Unsent::PoolClosed {
            host: parsed(alloc, parts)?,
        },
        "dial" => Unsent::Dial {
            bad: is_that(alloc, parts, "bad", "")?,
        },
        "greeting" => Unsent::Greeting {
            code: parsed(alloc, parts)?,
        },
        "too_large" => {
            let (size, most) = pair::<u64, u64>(alloc, parts)?;
            Unsent::TooLarge { size, most }
        }
        _ => return Ok(None),
    };
    Ok(Some(unsent))
}

/// What a reply says.
fn said_of(alloc: Global, name: &str, parts: &str) -> Result<Option<ReplyResult>, CaseFault> {
    let said = match name {
        "ok" => {
            let (n, modified) = pair::<i64, i64>(alloc, parts)?;
            ReplyResult::Ok { n, modified }
        }
        "write_errors" => {
            let (count, first) = pair::<u32, i32>(alloc, parts)?;
            ReplyResult::WriteErrors { count, first }
        }
        "concern" => ReplyResult::Concern {
            code: parsed(alloc, parts)?,
        },
        "error" => ReplyResult::Error {
            code: parsed(alloc, parts)?,
        },
        _ => return Ok(None),
    };
    Ok(Some(said))
}

/// A reply with labels.
fn reading_of(alloc: Global, said: ReplyResult, labels: &str) -> Result<Reading, CaseFault> {
    let (retryable, no_writes) = match labels {
        "" => (false, false),
        "retryable" => (true, false),
        "no_writes" => (false, true),
        "retryable+no_writes" => (true, true),
        _ => return Err(CaseFault::form(alloc, labels)),
    };
    Ok(Reading {
        result: said,
        retryable,
        no_writes,
        state: None,
        version: None,
    })
}

/// Whether a word is the first of two, of which it must be one.
fn is_that(alloc: Global, word: &str, first: &str, second: &str) -> Result<bool, CaseFault> {
    if word == first {
        Ok(true)
    } else if word == second {
        Ok(false)
    } else {
        Err(CaseFault::form(alloc, word))
    }
}

/// What a selection came to, or a bad reply.
fn look_of(alloc: Global, name: &str, parts: &str) -> Result<OpEvent, CaseFault> {
    match name {
        "chosen" => {
            let (host, kind) = two(alloc, parts)?;
            Ok(OpEvent::Chosen {
                host: parsed(alloc, host)?,
                numbered: is_that(alloc, kind, "numbered", "plain")?,
            })
        }
        "incompatible" => {
            let (host, versions) = two(alloc, parts)?;
            let (min, max) = pair::<i32, i32>(alloc, versions)?;
            Ok(OpEvent::Incompatible {
                host: parsed(alloc, host)?,
                min,
                max,
            })
        }
        "bad" => Ok(OpEvent::Bad {
            at: parsed(alloc, parts)?,
        }),
        _ => Err(CaseFault::word(alloc, name)),
    }
}

/// The two parts of a text.
fn two(alloc: Global, parts: &str) -> Result<(&str, &str), CaseFault> {
    match parts.split_once(':') {
        Some(both) => Ok(both),
        None => Err(CaseFault::form(alloc, parts)),
    }
}

/// The two numbers of a text.
fn pair<A: FromStr + Drop, B: FromStr + Drop>(
    alloc: Global,
    parts: &str,
) -> Result<(A, B), CaseFault>
where
    A::Err: Drop,
    B::Err: Drop,
{
    let (first, second) = two(alloc, parts)?;
    Ok((parsed(alloc, first)?, parsed(alloc, second)?))
}
