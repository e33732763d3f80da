//! The facts, each by its first word:
//!
//! - of bytes that have a name, how many there are, `length`;
//! - of a run, its `status`, why its words are refused, `usage`, what was written, `out`, and how many `members` a soak left;
//!   of its trail how many `entries` there are, which `hosts` were named, how its `attempts` ended, with their commands'
//!   numbers, the `requests` of commands, with their `ids`; and the facts of [`event_fact`].
//!
//! Bytes go by the first name that has them, and in hexadecimal where none has.
use crate::events::event_fact;
use crate::known::Known;
use crate::quoted::push_quoted;
use crate::runs::Run;
use crate::state::Told;
use case_files::{CaseFault, Memory};
use conn_uri::UriFault;
use desk_trail::{Entry, Purpose, Request, Trail};
use shell_top::{Status, UseFault};
use std::alloc::Global;
use write_retry::{AttemptEnd, Unsent};

/// The fact of that name behind the last step.
pub fn fact_of(
    alloc: Global,
    known: &Known,
    told: &Told,
    name: &str,
) -> Result<Option<String>, CaseFault> {
    match told {
        Told::Named(count) if name == "length" => Ok(Some(format!(in alloc; "length {count}")?)),
        Told::Named(_) => Ok(None),
        Told::Ran(run) => run_fact(alloc, known, run, name),
    }
}

fn run_fact(
    alloc: Global,
    known: &Known,
    run: &Run,
    name: &str,
) -> Result<Option<String>, CaseFault> {
    if let Status::Memory = run.status {
        return Err(CaseFault::Memory);
    }
    let mut line = String::from_str(alloc, name)?;
    if push_fact(&mut line, known, run, name)? {
        return Ok(Some(line));
    }
    event_fact(alloc, known, run.net.events(), name)
}

/// Appends what the fact of that name says, unless it is one about the net: whether it is not.
fn push_fact(line: &mut String, known: &Known, run: &Run, name: &str) -> Result<bool, Memory> {
    match name {
        "status" => write!(line, " {}", run.status.code())?,
        "usage" => push_usage(line, &run.status)?,
        "members" => write!(line, " {}", members_of(run))?,
        "out" => push_out(line, run)?,
        "entries" => write!(line, " {}", run.trail.steps.len())?,
        "hosts" => push_hosts(line, &run.trail)?,
        "attempts" => push_attempts(line, &run.trail)?,
        "requests" | "ids" => push_requests(line, known, name, &run.trail)?,
        _ => return Ok(false),
    }
    Ok(true)
}

fn push_usage(line: &mut String, status: &Status) -> Result<(), Memory> {
    match status {
        Status::Usage(fault) => push_use_fault(line, fault),
        _ => line.push_str(" none"),
    }
}

/// How many members a soak left.
fn members_of(run: &Run) -> u32 {
    match &run.soaked {
        Some(hall) => hall.members(),
        None => 0,
    }
}

fn push_out(line: &mut String, run: &Run) -> Result<(), Memory> {
    line.push_str(" ")?;
    push_quoted(line, run.out.written())
}

fn push_use_fault(line: &mut String, fault: &UseFault) -> Result<(), Memory> {
    match fault {
        UseFault::Dash { place } => write!(line, " dash {place}"),
        UseFault::Words => line.push_str(" words"),
        UseFault::Uri(fault) => {
            line.push_str(" uri ")?;
            push_uri_fault(line, fault)
        }
    }
}

fn push_uri_fault(line: &mut String, fault: &UriFault) -> Result<(), Memory> {
    match fault {
        UriFault::Scheme => line.push_str("Scheme"),
        UriFault::Credentials => line.push_str("Credentials"),
        UriFault::Escape { at } => write!(line, "Escape {at}"),
        UriFault::Host(fault) => write!(line, "Host {fault:?}"),
        UriFault::Left { name } => write!(line, "Left {}", name.as_str()),
        UriFault::Clash(clash) => write!(line, "Clash {clash:?}"),
        UriFault::Memory => line.push_str("Memory"),
    }
}

/// The hosts that were named, in order.
fn push_hosts(line: &mut String, trail: &Trail) -> Result<(), Memory> {
    for host in trail.names.as_slice() {
        write!(line, " {host}")?;
    }
    Ok(())
}

/// The attempts that ended, each as its command's number, from 1, and its end.
fn push_attempts(line: &mut String, trail: &Trail) -> Result<(), Memory> {
    for step in trail.steps.as_slice() {
        if let Entry::Ended { op, end } = &step.entry {
            write!(line, " {}:", op.saturating_add(1))?;
            push_end(line, end)?;
        }
    }
    Ok(())
}

fn push_end(line: &mut String, end: &AttemptEnd) -> Result<(), Memory> {
    match end {
        AttemptEnd::Replied(_) => line.push_str("Replied"),
        AttemptEnd::Cut => line.push_str("Cut"),
        AttemptEnd::Fault => line.push_str("Fault"),
        AttemptEnd::TimedOut => line.push_str("TimedOut"),
        AttemptEnd::Bad { at } => write!(line, "Bad:{at}"),
        AttemptEnd::Unsent(unsent) => push_unsent(line, unsent),
    }
}

fn push_unsent(line: &mut String, unsent: &Unsent) -> Result<(), Memory> {
    match unsent {
        Unsent::TooLarge { .. } => line.push_str("TooLarge"),
        _ => write!(line, "{unsent:?}"),
    }
}

/// What the fact says of each request of a command.
fn push_requests(
    line: &mut String,
    known: &Known,
    name: &str,
    trail: &Trail,
) -> Result<(), Memory> {
    for request in trail.requests.as_slice() {
        if let Purpose::Command { .. } = request.purpose {
            push_request(line, known, name, request)?;
        }
    }
    Ok(())
}

fn push_request(
    line: &mut String,
    known: &Known,
    name: &str,
    request: &Request,
) -> Result<(), Memory> {
    if name == "ids" {
        return write!(line, " {}", request.id);
    }
    line.push_str(" ")?;
    known.push_name(line, request.bytes.as_slice())
}
