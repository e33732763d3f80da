use crate::known::Known;
use bson_doc::Bytes;
use case_files::{CaseFault, Memory};
use net_link::NetEvent;
use std::alloc::Global;

/// How many events the fact `last` shows.
const LAST: usize = 2;

/// The fact of that name about what happened on the net: how many `events` there are, what the `last` two were, which
/// addresses were `dialled`, what was `sent`, a write each, what `came`, in one piece, and how many streams were `closed`.
pub fn event_fact(
    alloc: Global,
    known: &Known,
    events: &[NetEvent],
    name: &str,
) -> Result<Option<String>, CaseFault> {
    let mut line = String::from_str(alloc, name)?;
    if push_fact(alloc, &mut line, known, events, name)? {
        return Ok(Some(line));
    }
    Ok(None)
}

/// Appends what the fact of that name says; whether there is one.
fn push_fact(
    alloc: Global,
    line: &mut String,
    known: &Known,
    events: &[NetEvent],
    name: &str,
) -> Result<bool, Memory> {
    match name {
        "events" => write!(line, " {}", events.len())?,
        "last" => push_last(line, events)?,
        "closed" => write!(line, " {}", count_closed(events))?,
        "came" => push_came(alloc, line, known, events)?,
        "dialled" | "sent" => push_events(line, known, name, events)?,
        _ => return Ok(false),
    }
    Ok(true)
}

/// Appends the name of all that came.
fn push_came(
    alloc: Global,
    line: &mut String,
    known: &Known,
    events: &[NetEvent],
) -> Result<(), Memory> {
    let bytes = all_that_came(alloc, events)?;
    line.push_str(" ")?;
    known.push_name(line, bytes.as_slice())
}

fn push_events(
    line: &mut String,
    known: &Known,
    name: &str,
    events: &[NetEvent],
) -> Result<(), Memory> {
    for event in events {
        push_event(line, known, name, event)?;
    }
    Ok(())
}

fn push_event(
    line: &mut String,
    known: &Known,
    name: &str,
    event: &NetEvent,
) -> Result<(), Memory> {
    match event {
        NetEvent::Dialled { address, .. } if name == "dialled" => {
            write!(line, " {}", address.as_str())
        }
        NetEvent::Out { bytes, .. } if name == "sent" => {
            line.push_str(" ")?;
            known.push_name(line, bytes.as_slice())
        }
        _ => Ok(()),
    }
}

fn push_last(line: &mut String, events: &[NetEvent]) -> Result<(), Memory> {
    let hidden = events.len().saturating_sub(LAST);
    for event in events.iter().skip(hidden) {
        line.push_str(" ")?;
        line.push_str(kind_of(event))?;
    }
    Ok(())
}

fn kind_of(event: &NetEvent) -> &'static str {
    match event {
        NetEvent::Dialled { .. } => "dialled",
        NetEvent::NoDial { .. } => "undialled",
        NetEvent::Out { .. } => "out",
        NetEvent::Came { .. } => "came",
        NetEvent::Ended { .. } => "ended",
        NetEvent::Fault { .. } => "fault",
        NetEvent::Closed { .. } => "closed",
        NetEvent::Dry { .. } => "dry",
        NetEvent::Full { .. } => "full",
        _ => "another",
    }
}

fn count_closed(events: &[NetEvent]) -> usize {
    events
        .iter()
        .filter(|event| matches!(event, NetEvent::Closed { .. }))
        .count()
}

fn all_that_came(alloc: Global, events: &[NetEvent]) -> Result<Bytes, Memory> {
    let mut all = Vec::new(alloc);
    for event in events {
        if let NetEvent::Came { bytes, .. } = event {
            all.extend_from_slice(bytes.as_slice())?;
        }
    }
    Ok(Bytes::from_vec(all))
}
