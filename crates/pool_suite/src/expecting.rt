//! The events that a file expects.
use crate::event::Event;
use serde_json::Value;
use std::alloc::Global;
use suite_files::members::{items, object, text};
use suite_files::{Fault, Memory, Tally};

/// What stands for any value.
const ANY: u64 = 42;

/// Compares the events, without those that the file ignores, with those that it expects.
pub fn compare_events(
    alloc: Global,
    file: &Value,
    events: &[Event],
    tally: &mut Tally,
) -> Result<(), Fault> {
    let ignored = items(alloc, file, "ignore")?;
    let mut got = Vec::new(alloc);
    for event in events {
        if !is_ignored(ignored, event.kind) {
            got.push(*event)?;
        }
    }
    let expected = items(alloc, file, "events")?;
    let wanted = format!(in alloc; "{}", expected.len())?;
    let found = format!(in alloc; "{}", got.len())?;
    tally.compare(alloc, "events", wanted.as_str(), found.as_str())?;
    for (place, (expected, event)) in expected.iter().zip(got.iter()).enumerate() {
        compare_event(alloc, place, expected, event, tally)?;
    }
    Ok(())
}

fn is_ignored(ignored: &[Value], kind: &str) -> bool {
    ignored.iter().any(|name| name.as_str() == Some(kind))
}

/// Compares each member of an event. There is one address, so that none is compared.
fn compare_event(
    alloc: Global,
    place: usize,
    expected: &Value,
    event: &Event,
    tally: &mut Tally,
) -> Result<(), Fault> {
    for (name, value) in object(alloc, expected)?.iter() {
        let name = name.as_str();
        let what = format_args!("event {place} {name}");
        match name {
            "type" => tally.compare(alloc, what, text(alloc, value)?, event.kind)?,
            "reason" => {
                let reason = event.reason.unwrap_or("none");
                tally.compare(alloc, what, text(alloc, value)?, reason)?;
            }
            "connectionId" => compare_conn(alloc, place, value, event.conn, tally)?,
            "address" | "options" if value.as_u64() == Some(ANY) => {}
            _ => tally.complain(alloc, format_args!("event {place}: no call for {name}"))?,
        }
    }
    Ok(())
}

/// Compares the connection of an event.
fn compare_conn(
    alloc: Global,
    place: usize,
    expected: &Value,
    conn: Option<u64>,
    tally: &mut Tally,
) -> Result<(), Memory> {
    let what = format_args!("event {place} connectionId");
    let Some(conn) = conn else {
        return tally.compare(alloc, what, "a connection", "none");
    };
    match expected.as_u64() {
        Some(ANY) => tally.compare(alloc, what, "any", "any"),
        Some(expected) => {
            let expected = format!(in alloc; "{expected}")?;
            let got = format!(in alloc; "{conn}")?;
            tally.compare(alloc, what, expected.as_str(), got.as_str())
        }
        None => tally.complain(alloc, format_args!("{what}: a number is wanted")),
    }
}
