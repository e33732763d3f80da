//! The facts, each by its first word:
//!
//! - behind a command how many `commands` there are, and behind what peers were told, how many `members` a document has; how many `dials` wait that were told of; how many things
//!   were told of the stream and not done, `writes` or `reads`; the `length` of what comes, and `to` which request it answers;
//! - behind a step of the client, its entries one by one, `entry ..` as [`entry_text`] says, and the `moment` of the last one;
//!   behind `check` and `op` also `answer answered`, `answer wait MOMENT`, `answer again` or `answer memory`; behind `next` the
//!   `command N` that comes next, or `command none`;
//! - behind each of the client's: the `topology` that its accepted events make, the check that is `due HOST MOMENT` or `due
//!   none`, where it runs, whether it `stopped`, the streams that are `open` and that were `closed`, and how many bytes each of
//!   them took, `sent`.
use crate::entries::entry_text;
use crate::hosts::push_host;
use crate::log::Log;
use crate::state::{State, Told};
use crate::stream::Stream;
use crate::topologies::{folded, topology_text};
use case_files::{CaseFault, Memory};
use desk_core::{Due, Sight};
use std::alloc::Global;

/// The fact of that name behind the last step.
pub fn fact_of(alloc: Global, state: &State<'_>, name: &str) -> Result<Option<String>, CaseFault> {
    match state.told {
        Told::Nothing => Ok(None),
        Told::Count(what, count) if what == name => {
            Ok(Some(format!(in alloc; "{name} {count}")?))
        }
        Told::Count(_, _) => Ok(None),
        Told::Message(length, _) if name == "length" => {
            Ok(Some(format!(in alloc; "length {length}")?))
        }
        Told::Message(_, to) if name == "to" => Ok(Some(format!(in alloc; "to {to}")?)),
        Told::Message(_, _) => Ok(None),
        Told::Sight(sight) if name == "answer" => Ok(Some(sight_text(alloc, sight)?)),
        Told::Next(next) if name == "command" => Ok(Some(next_text(alloc, next)?)),
        Told::Memory if name == "answer" => Ok(Some(String::from_str(alloc, "answer memory")?)),
        _ => client_fact(alloc, state, name),
    }
}

fn sight_text(alloc: Global, sight: Sight) -> Result<String, Memory> {
    match sight {
        Sight::Answered => String::from_str(alloc, "answer answered"),
        Sight::Wait { until } => format!(in alloc; "answer wait {until}"),
        Sight::Again => String::from_str(alloc, "answer again"),
    }
}

fn next_text(alloc: Global, next: Option<u32>) -> Result<String, Memory> {
    match next {
        Some(op) => format!(in alloc; "command {op}"),
        None => String::from_str(alloc, "command none"),
    }
}

/// The fact of that name about the client.
fn client_fact(alloc: Global, state: &State<'_>, name: &str) -> Result<Option<String>, CaseFault> {
    let Some(log) = state.client.log() else {
        return Ok(None);
    };
    match name {
        "entry" => next_entry(alloc, state, &log),
        "moment" => moment(alloc, &log),
        "topology" => topology(alloc, state, &log),
        "due" => match state.client.next_due() {
            Some(due) => Ok(Some(due_text(alloc, &log, due)?)),
            None => Ok(None),
        },
        "stopped" => match state.client.is_stopped() {
            Some(true) => Ok(Some(String::from_str(alloc, "stopped yes")?)),
            Some(false) => Ok(Some(String::from_str(alloc, "stopped no")?)),
            None => Ok(None),
        },
        _ => streams_fact(alloc, state, name),
    }
}

/// The next entry that no line named.
fn next_entry(
    alloc: Global,
    state: &State<'_>,
    log: &Log<'_>,
) -> Result<Option<String>, CaseFault> {
    let place = state.next.get();
    match log.steps.get(place) {
        Some(step) => {
            state.next.set(place.saturating_add(1));
            Ok(Some(entry_text(alloc, log, &step.entry)?))
        }
        None => Ok(None),
    }
}

fn moment(alloc: Global, log: &Log<'_>) -> Result<Option<String>, CaseFault> {
    match log.steps.last() {
        Some(step) => Ok(Some(format!(in alloc; "moment {}", step.moment)?)),
        None => Ok(None),
    }
}

fn topology(alloc: Global, state: &State<'_>, log: &Log<'_>) -> Result<Option<String>, CaseFault> {
    match state.client.opening() {
        Some(opening) => {
            let topology = folded(alloc, opening, log)?;
            Ok(Some(topology_text(alloc, &topology)?))
        }
        None => Ok(None),
    }
}

fn due_text(alloc: Global, log: &Log<'_>, due: Option<Due>) -> Result<String, Memory> {
    let mut line = String::from_str(alloc, "due ")?;
    match due {
        Some(due) => {
            push_host(&mut line, log, due.host)?;
            write!(&mut line, " {}", due.at)?;
        }
        None => line.push_str("none")?,
    }
    Ok(line)
}

/// The fact of that name about the streams, `none` where it holds of none of them.
fn streams_fact(alloc: Global, state: &State<'_>, name: &str) -> Result<Option<String>, CaseFault> {
    if !matches!(name, "open" | "closed" | "sent") {
        return Ok(None);
    }
    let Ok(peers) = state.peers.try_borrow() else {
        return Err(CaseFault::Refused("the peers are in use"));
    };
    let mut line = String::from_str(alloc, name)?;
    let mut number: u64 = 0;
    for stream in peers.streams() {
        push_stream(&mut line, name, number, stream)?;
        number = number.saturating_add(1);
    }
    if line.as_str() == name {
        line.push_str(" none")?;
    }
    Ok(Some(line))
}

/// What the fact of that name says of one stream.
fn push_stream(line: &mut String, name: &str, number: u64, stream: &Stream) -> Result<(), Memory> {
    match name {
        "open" if stream.dialled && !stream.closed => write!(line, " {number}"),
        "closed" if stream.closed => write!(line, " {number}"),
        "sent" if stream.taken > 0 => write!(line, " {number}={}", stream.taken),
        _ => Ok(()),
    }
}
