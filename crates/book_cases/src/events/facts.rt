//! The facts. Behind each step stand how many listeners there are (`len`), how many have `left`, the names of those that
//! are `there`, in order, and by the name of each what it heard.
use crate::events::state::State;
use case_files::{CaseFault, Memory};
use drv_events::Event;
use std::alloc::Global;

/// The fact of that name behind the last step.
pub fn fact_of(alloc: Global, state: &State, name: &str) -> Result<Option<String>, CaseFault> {
    match name {
        "len" => Ok(Some(format!(in alloc; "len {}", state.hooks.len())?)),
        "left" => Ok(Some(format!(in alloc; "left {}", state.hooks.left())?)),
        "there" => Ok(Some(there(alloc, state)?)),
        _ => heard_by(alloc, state, name),
    }
}

/// The names of those that are there.
fn there(alloc: Global, state: &State) -> Result<String, Memory> {
    let mut line = String::from_str(alloc, "there")?;
    for recorder in &state.hooks.listeners {
        write!(line, " {}", recorder.name)?;
    }
    Ok(line)
}

/// What the listener of that name heard; none where no such listener is there.
fn heard_by(alloc: Global, state: &State, name: &str) -> Result<Option<String>, CaseFault> {
    for recorder in &state.hooks.listeners {
        if recorder.name.as_str() == name {
            let line = heard(alloc, name, recorder.heard.as_slice())?;
            return Ok(Some(line));
        }
    }
    Ok(None)
}

fn heard(alloc: Global, name: &str, events: &[Event]) -> Result<String, Memory> {
    let mut line = String::from_str(alloc, name)?;
    for event in events {
        write!(line, " {event:?}")?;
    }
    Ok(line)
}
