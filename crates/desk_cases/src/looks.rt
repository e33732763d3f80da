//! What commands look for and hold, in words.
use crate::hosts::push_host;
use crate::log::Log;
use case_files::Memory;
use desk_trail::{Entry, LookedHow};

/// The entries of a command's looks and of its session:
///
/// - `Looked op=N a=WORD b=WORD kept=HOST,HOST chosen=HOST`, with `kept=none` where the picker kept none; in place of the host that
///   was chosen `none_fits`, `failed`, or `incompatible=HOST`;
/// - `Leased op=N session=PLACE fresh`, or `again` where it was used before; `Drew op=N number=N`; `Returned op=N clean kept`, with
///   `dirty` and `dropped` in their places.
///
/// False of other entries.
pub fn push_look(line: &mut String, log: &Log<'_>, entry: &Entry) -> Result<bool, Memory> {
    match entry {
        Entry::Looked {
            op,
            a,
            b,
            kept,
            picked,
        } => {
            write!(line, "Looked op={op} a={a} b={b}")?;
            push_found(line, log, kept.as_slice(), *picked)?;
        }
        Entry::Leased { op, session, fresh } => push_leased(line, *op, *session, *fresh)?,
        _ => return push_session(line, entry),
    }
    Ok(true)
}

/// The entries of a session's number and of its return.
fn push_session(line: &mut String, entry: &Entry) -> Result<bool, Memory> {
    match entry {
        Entry::Drew { op, number } => write!(line, "Drew op={op} number={number}")?,
        Entry::Returned { op, dirty, kept } => push_returned(line, *op, *dirty, *kept)?,
        _ => return Ok(false),
    }
    Ok(true)
}

/// What the picker kept, and what the look came to.
fn push_found(
    line: &mut String,
    log: &Log<'_>,
    kept: &[u32],
    picked: LookedHow,
) -> Result<(), Memory> {
    push_kept(line, log, kept)?;
    push_picked(line, log, picked)
}

fn push_kept(line: &mut String, log: &Log<'_>, kept: &[u32]) -> Result<(), Memory> {
    line.push_str(" kept=")?;
    if kept.is_empty() {
        return line.push_str("none");
    }
    let mut is_first = true;
    for host in kept {
        if !is_first {
            line.push_str(",")?;
        }
        is_first = false;
        push_host(line, log, *host)?;
    }
    Ok(())
}

fn push_picked(line: &mut String, log: &Log<'_>, picked: LookedHow) -> Result<(), Memory> {
    match picked {
        LookedHow::Chosen { host } => {
            line.push_str(" chosen=")?;
            push_host(line, log, host)
        }
        LookedHow::NoneFits => line.push_str(" none_fits"),
        LookedHow::Failed => line.push_str(" failed"),
        LookedHow::Incompatible { host } => {
            line.push_str(" incompatible=")?;
            push_host(line, log, host)
        }
    }
}

fn push_leased(line: &mut String, op: u32, session: u64, fresh: bool) -> Result<(), Memory> {
    let age = if fresh { "fresh" } else { "again" };
    write!(line, "Leased op={op} session={session} {age}")
}

fn push_returned(line: &mut String, op: u32, dirty: bool, kept: bool) -> Result<(), Memory> {
    let state = if dirty { "dirty" } else { "clean" };
    let fate = if kept { "kept" } else { "dropped" };
    write!(line, "Returned op={op} {state} {fate}")
}
