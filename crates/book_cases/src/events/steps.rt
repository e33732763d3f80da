//! The steps, each by its first word:
//!
//! - `hooks` forgets all listeners;
//! - `add NAME [after=N]` adds a listener, which leaves with the N-th event that it hears; with `after=0` it leaves at the
//!   first event, without hearing it;
//! - `tell EVENT WORD..` tells an event, whose fields are words as `host=1`.
use crate::events::events::event_of;
use crate::events::recorder::Recorder;
use crate::events::state::State;
use case_files::{CaseFault, Words};
use drv_events::{HooksOf, deliver};
use std::alloc::Global;

/// Takes the step of these words.
pub fn step_of(alloc: Global, state: &mut State, words: &mut Words<'_>) -> Result<(), CaseFault> {
    let verb = words.next_as("step")?;
    match verb {
        "hooks" => {
            state.hooks = HooksOf::new(alloc);
            Ok(())
        }
        "add" => {
            let name = words.next_as("name")?;
            let most = words.number(alloc, "after")?;
            add(alloc, state, name, most)
        }
        "tell" => {
            let event = event_of(alloc, words)?;
            deliver(&mut state.hooks, state.names.as_slice(), &event);
            Ok(())
        }
        _ => Err(CaseFault::word(alloc, verb)),
    }
}

/// Adds a listener of that name.
fn add(alloc: Global, state: &mut State, name: &str, most: Option<usize>) -> Result<(), CaseFault> {
    if state.hooks.len() >= 1000 || state.hooks.left() >= 1000 {
        return Err(CaseFault::Refused("a thousand listeners"));
    }
    let recorder = Recorder {
        name: String::from_str(alloc, name)?,
        heard: Vec::new(alloc),
        most,
        leaves: most == Some(0),
    };
    match state.hooks.add(recorder) {
        Ok(()) => Ok(()),
        Err(_) => Err(CaseFault::Memory),
    }
}
