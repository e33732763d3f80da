//! The facts. What a call answered is `made`, `no_member`, `twice PLACE`, `stranger PLACE`, `stream NUMBER`, `took all` or `took COUNT of ALL`, what
//! [`replies`](crate::replies) says, `dry`, `end`, `failed` or `closed`. Behind each step of a hall stand its `events`, those
//! that the step added, the `logs` of its members, its `elections` and who was elected `last`.
use crate::state::{State, Told};
use case_files::{CaseFault, Memory};
use member_core::{Key, LogEntry};
use member_hall::Hall;
use net_link::NetEvent;
use std::alloc::Global;

/// The fact of that name behind the last step.
pub fn fact_of(alloc: Global, state: &State, name: &str) -> Result<Option<String>, CaseFault> {
    let Some(hall) = &state.hall else {
        return Ok(Some(answer_text(alloc, &state.told)?));
    };
    match name {
        "events" => Ok(Some(events_text(alloc, hall, state.before)?)),
        "logs" => Ok(Some(logs_text(alloc, hall)?)),
        "elections" => Ok(Some(format!(in alloc; "elections {}", hall.elections())?)),
        "last" => Ok(Some(format!(in alloc; "last {}", hall.last_elected())?)),
        _ => Ok(Some(answer_text(alloc, &state.told)?)),
    }
}

fn answer_text(alloc: Global, told: &Told) -> Result<String, Memory> {
    match told {
        Told::Made => String::from_str(alloc, "made"),
        Told::NoMember => String::from_str(alloc, "no_member"),
        Told::Twice(place) => format!(in alloc; "twice {place}"),
        Told::Stranger(place) => format!(in alloc; "stranger {place}"),
        Told::Stream(stream) => format!(in alloc; "stream {stream}"),
        Told::Took(count, all) if count == all => String::from_str(alloc, "took all"),
        Told::Took(count, all) => format!(in alloc; "took {count} of {all}"),
        Told::Came(text) => String::from_str(alloc, text.as_str()),
        Told::NotYet => String::from_str(alloc, "dry"),
        Told::End => String::from_str(alloc, "end"),
        Told::Failed => String::from_str(alloc, "failed"),
        Told::Closed => String::from_str(alloc, "closed"),
    }
}

/// The events behind the first so many, in short.
fn events_text(alloc: Global, hall: &Hall, before: usize) -> Result<String, Memory> {
    let events = hall.events();
    let mut text = String::from_str(alloc, "events")?;
    for event in &events[before.min(events.len())..] {
        let more = event_text(alloc, event)?;
        text.push_str(" ")?;
        text.push_str(more.as_str())?;
    }
    Ok(text)
}

fn event_text(alloc: Global, event: &NetEvent) -> Result<String, Memory> {
    match event {
        NetEvent::Dialled { stream, .. } => format!(in alloc; "Dialled({stream})"),
        NetEvent::NoDial { .. } => String::from_str(alloc, "NoDial"),
        NetEvent::Out { stream, .. } => format!(in alloc; "Out({stream})"),
        NetEvent::Came { stream, .. } => format!(in alloc; "Came({stream})"),
        NetEvent::Ended { stream } => format!(in alloc; "Ended({stream})"),
        NetEvent::Fault { stream } => format!(in alloc; "Fault({stream})"),
        NetEvent::Closed { stream } => format!(in alloc; "Closed({stream})"),
        NetEvent::Dry { stream } => format!(in alloc; "Dry({stream})"),
        NetEvent::Full { stream } => format!(in alloc; "Full({stream})"),
        NetEvent::Handled {
            member,
            stream,
            nth,
            effect,
        } => format!(in alloc; "Handled({member},{stream},{nth},{effect:?})"),
        NetEvent::Elected { member } => format!(in alloc; "Elected({member})"),
        NetEvent::Followed { member } => format!(in alloc; "Followed({member})"),
    }
}

/// The logs of all members, parted by bars; an empty one is `-`.
fn logs_text(alloc: Global, hall: &Hall) -> Result<String, Memory> {
    let mut text = String::from_str(alloc, "logs")?;
    for member in 0..hall.members() {
        if member > 0 {
            text.push_str(" |")?;
        }
        let log = hall.log(member);
        if log.len() == 0 {
            text.push_str(" -")?;
        }
        for entry in log.as_slice() {
            let more = entry_text(alloc, entry)?;
            text.push_str(" ")?;
            text.push_str(more.as_str())?;
        }
    }
    Ok(text)
}

/// An entry: the number of its session or `*`, and its stream and place there.
fn entry_text(alloc: Global, entry: &LogEntry) -> Result<String, Memory> {
    let stream = entry.stream;
    let nth = entry.nth;
    match entry.key {
        Key::Numbered { number, .. } => format!(in alloc; "{number}@{stream}.{nth}"),
        Key::Placed { .. } => format!(in alloc; "*@{stream}.{nth}"),
    }
}
