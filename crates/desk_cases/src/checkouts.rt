//! What commands do with pools, in words.
use crate::ends::push_unsent;
use crate::hosts::{push_at_host, push_of_host};
use crate::log::Log;
use case_files::Memory;
use desk_trail::Entry;
use pool_book::CloseReason;
use write_retry::Unsent;

/// The entries of a command's connection:
///
/// - `Entered op=N HOST ticket=N`, `Lent op=N HOST conn=N`, `Dialled op=N HOST conn=N stream=N`, with `stream=none` where the dial
///   failed, and `Settled op=N HOST conn=N`, with `stale` behind it where it is;
/// - `NotLent op=N HOST WHY`, with WHY as [`push_unsent`] says;
/// - `CheckedIn op=N HOST conn=N`, with `errored` behind it where it is, and `ConnShut HOST conn=N REASON`, where REASON is
///   `Stale`, `Idle`, `Errored` or `PoolClosed`.
///
/// False of other entries.
pub fn push_check_out(line: &mut String, log: &Log<'_>, entry: &Entry) -> Result<bool, Memory> {
    match entry {
        Entry::Entered { op, host, ticket } => push_entered(line, log, *op, *host, *ticket)?,
        Entry::NotLent { op, host, why } => push_not_lent(line, log, *op, *host, *why)?,
        _ => return push_conn(line, log, entry),
    }
    Ok(true)
}

/// The entries of a connection's beginning and end.
fn push_conn(line: &mut String, log: &Log<'_>, entry: &Entry) -> Result<bool, Memory> {
    match entry {
        Entry::Dialled {
            op,
            host,
            conn,
            stream,
        } => {
            push_at_host(line, log, "Dialled", *op, *host)?;
            push_dialled(line, *conn, *stream)?;
        }
        _ => return push_lent(line, log, entry),
    }
    Ok(true)
}

/// The entries of a connection that is lent.
fn push_lent(line: &mut String, log: &Log<'_>, entry: &Entry) -> Result<bool, Memory> {
    match entry {
        Entry::Lent { op, host, conn } => {
            push_at_host(line, log, "Lent", *op, *host)?;
            push_flagged(line, *conn, false, "")?;
        }
        Entry::Settled {
            op,
            host,
            conn,
            stale,
        } => {
            push_at_host(line, log, "Settled", *op, *host)?;
            push_flagged(line, *conn, *stale, " stale")?;
        }
        _ => return push_back(line, log, entry),
    }
    Ok(true)
}

/// The entries of a connection that comes back.
fn push_back(line: &mut String, log: &Log<'_>, entry: &Entry) -> Result<bool, Memory> {
    match entry {
        Entry::CheckedIn {
            op,
            host,
            conn,
            errored,
        } => {
            push_at_host(line, log, "CheckedIn", *op, *host)?;
            push_flagged(line, *conn, *errored, " errored")?;
        }
        Entry::ConnShut { host, conn, reason } => {
            push_of_host(line, log, "ConnShut", *host)?;
            push_reason(line, *conn, *reason)?;
        }
        _ => return Ok(false),
    }
    Ok(true)
}

fn push_entered(
    line: &mut String,
    log: &Log<'_>,
    op: u32,
    host: u32,
    ticket: u64,
) -> Result<(), Memory> {
    push_at_host(line, log, "Entered", op, host)?;
    write!(line, " ticket={ticket}")
}

fn push_not_lent(
    line: &mut String,
    log: &Log<'_>,
    op: u32,
    host: u32,
    why: Unsent,
) -> Result<(), Memory> {
    push_at_host(line, log, "NotLent", op, host)?;
    push_unsent(line, log, why)
}

fn push_reason(line: &mut String, conn: u64, reason: CloseReason) -> Result<(), Memory> {
    let reason = reason_text(reason);
    write!(line, " conn={conn} {reason}")
}

fn push_dialled(line: &mut String, conn: u64, stream: Option<u64>) -> Result<(), Memory> {
    match stream {
        Some(stream) => write!(line, " conn={conn} stream={stream}"),
        None => write!(line, " conn={conn} stream=none"),
    }
}

fn push_flagged(line: &mut String, conn: u64, is_so: bool, flag: &str) -> Result<(), Memory> {
    write!(line, " conn={conn}")?;
    if is_so {
        line.push_str(flag)?;
    }
    Ok(())
}

fn reason_text(reason: CloseReason) -> &'static str {
    match reason {
        CloseReason::Stale => "Stale",
        CloseReason::Idle => "Idle",
        CloseReason::Errored => "Errored",
        CloseReason::PoolClosed => "PoolClosed",
    }
}
