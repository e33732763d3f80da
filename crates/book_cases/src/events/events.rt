use case_files::{CaseFault, Words, parsed};
use drv_events::{Event, OutWhy};
use pool_book::CloseReason;
use std::alloc::Global;

/// The event of these words: its name, and its fields.
pub fn event_of(alloc: Global, words: &mut Words<'_>) -> Result<Event, CaseFault> {
    let name = words.next_as("event")?;
    let event = match name {
        "TopologyOpened" => Event::TopologyOpened,
        "TopologyChanged" => Event::TopologyChanged,
        "TopologyClosed" => Event::TopologyClosed,
        "CommandStarted" => Event::CommandStarted {
            op: number(alloc, words, "op")?,
        },
        "CommandSucceeded" => Event::CommandSucceeded {
            op: number(alloc, words, "op")?,
        },
        "CommandFailed" => Event::CommandFailed {
            op: number(alloc, words, "op")?,
        },
        _ => {
            let host = number(alloc, words, "host")?;
            of_host(alloc, name, host, words)?
        }
    };
    Ok(event)
}

/// The event of that name of a host.
fn of_host(
    alloc: Global,
    name: &str,
    host: u32,
    words: &mut Words<'_>,
) -> Result<Event, CaseFault> {
    let event = match name {
        "ServerOpened" => Event::ServerOpened { host },
        "ServerClosed" => Event::ServerClosed { host },
        "BeatStarted" => Event::BeatStarted { host },
        "BeatSucceeded" => Event::BeatSucceeded {
            host,
            micros: parsed(alloc, words.must_value("micros")?)?,
        },
        "BeatFailed" => Event::BeatFailed { host },
        "PoolCreated" => Event::PoolCreated { host },
        "PoolReady" => Event::PoolReady { host },
        "PoolCleared" => Event::PoolCleared { host },
        "PoolClosed" => Event::PoolClosed { host },
        "OutStarted" => Event::OutStarted {
            host,
            op: number(alloc, words, "op")?,
        },
        "OutFailed" => Event::OutFailed {
            host,
            op: number(alloc, words, "op")?,
            why: why_of(alloc, words.must_value("why")?)?,
        },
        _ => {
            let conn = parsed(alloc, words.must_value("conn")?)?;
            of_connection(alloc, name, host, conn, words)?
        }
    };
    Ok(event)
}

/// The event of that name of a connection.
fn of_connection(
    alloc: Global,
    name: &str,
    host: u32,
    conn: u64,
    words: &mut Words<'_>,
) -> Result<Event, CaseFault> {
    match name {
        "ConnCreated" => Ok(Event::ConnCreated { host, conn }),
        "ConnReady" => Ok(Event::ConnReady { host, conn }),
        "ConnClosed" => {
            let reason = reason_of(alloc, words.must_value("reason")?)?;
            Ok(Event::ConnClosed { host, conn, reason })
        }
        "CheckedOut" => {
            let op = number(alloc, words, "op")?;
            Ok(Event::CheckedOut { host, conn, op })
        }
        "CheckedIn" => {
            let op = number(alloc, words, "op")?;
            Ok(Event::CheckedIn { host, conn, op })
        }
        _ => Err(CaseFault::word(alloc, name)),
    }
}

fn number(alloc: Global, words: &mut Words<'_>, name: &'static str) -> Result<u32, CaseFault> {
    parsed(alloc, words.must_value(name)?)
}

fn why_of(alloc: Global, text: &str) -> Result<OutWhy, CaseFault> {
    match text {
        "Closed" => Ok(OutWhy::Closed),
        "Cleared" => Ok(OutWhy::Cleared),
        "Late" => Ok(OutWhy::Late),
        "Connection" => Ok(OutWhy::Connection),
        _ => Err(CaseFault::form(alloc, text)),
    }
}

fn reason_of(alloc: Global, text: &str) -> Result<CloseReason, CaseFault> {
    match text {
        "Stale" => Ok(CloseReason::Stale),
        "Idle" => Ok(CloseReason::Idle),
        "Errored" => Ok(CloseReason::Errored),
        "PoolClosed" => Ok(CloseReason::PoolClosed),
        _ => Err(CaseFault::form(alloc, text)),
    }
}
