//! The steps, each by its first word. Moments are microseconds:
//!
//! - `op [write] [retryable]` is a new command, and `event EVENT` an event of it;
//! - `run KIND FIRST SECOND` is a whole run of a new command, whose first attempt ends by the first event, and whose second
//!   attempt, or selection, ends by the second one; KIND is `numbered` for a write that may be repeated, `plain` for one at a
//!   server at which no number is drawn, `multi` for a write that may not be repeated, and `find` for no write;
//! - `watch beat=MICROS at=MOMENT` is a new server, and `begin at=MOMENT`, `end HOW at=MOMENT [known]` and `ask at=MOMENT`
//!   what happens to its checks; `again HOW [known]` asks whether a check that ended so is followed by another at once. HOW is
//!   `reply`, `refused`, `cut`, `fault`, `late`, `bad` or `no_dial`.
use crate::attempts::attempts::{Plan, run};
use crate::attempts::checks;
use crate::attempts::events::event_of;
use crate::attempts::state::{State, Told};
use case_files::{CaseFault, Words, parsed};
use std::alloc::Global;
use write_retry::{OpEvent, OpMachine};

/// Takes the step of these words.
pub fn step_of(alloc: Global, state: &mut State, words: &mut Words<'_>) -> Result<Told, CaseFault> {
    let verb = words.next_as("step")?;
    match verb {
        "op" => {
            let write = words.flag("write");
            let retryable = words.flag("retryable");
            state.machine = OpMachine::new(write, retryable);
            Ok(Told::Next(state.machine.next()))
        }
        "event" => {
            let event = event_of(alloc, words.next_as("event")?)?;
            Ok(told_by(&mut state.machine, event))
        }
        "run" => run_of(alloc, state, words),
        "again" => {
            let end = end_of(alloc, words)?;
            Ok(Told::Again(end.is_again(words.flag("known"))))
        }
        _ => check_step(alloc, state, words, verb),
    }
}

/// Takes an event, where it answers what is to be done.
fn told_by(machine: &mut OpMachine, event: OpEvent) -> Told {
    if machine.allows(&event) {
        Told::Next(machine.on(event))
    } else {
        Told::NotAllowed
    }
}

/// A whole run of a new command.
fn run_of(alloc: Global, state: &mut State, words: &mut Words<'_>) -> Result<Told, CaseFault> {
    let kind = words.next_as("kind")?;
    let first = event_of(alloc, words.next_as("first")?)?;
    let second = event_of(alloc, words.next_as("second")?)?;
    let (write, retryable, numbered) = match kind {
        "numbered" => (true, true, true),
        "plain" => (true, true, false),
        "multi" => (true, false, true),
        "find" => (false, false, true),
        _ => return Err(CaseFault::word(alloc, kind)),
    };
    let plan = Plan {
        numbered,
        first,
        second,
    };
    state.machine = OpMachine::new(write, retryable);
    Ok(Told::Run(run(&mut state.machine, plan)?))
}

/// What happens to a server's checks.
fn check_step(
    alloc: Global,
    state: &mut State,
    words: &mut Words<'_>,
    verb: &str,
) -> Result<Told, CaseFault> {
    match verb {
        "watch" => {
            let beat = parsed(alloc, words.must_value("beat")?)?;
            state.watch = checks::new(beat, moment(alloc, words)?)?;
        }
        "begin" => checks::begin(&mut state.watch, moment(alloc, words)?)?,
        "end" => {
            let end = end_of(alloc, words)?;
            let again = end.is_again(words.flag("known"));
            checks::end(&mut state.watch, moment(alloc, words)?, again)?;
        }
        "ask" => checks::ask(&mut state.watch, moment(alloc, words)?)?,
        _ => return Err(CaseFault::word(alloc, verb)),
    }
    Ok(Told::Checks)
}

fn end_of(alloc: Global, words: &mut Words<'_>) -> Result<watch_step::CheckEnd, CaseFault> {
    let name = words.next_as("end")?;
    checks::end_of(name).ok_or(CaseFault::word(alloc, name))
}

fn moment(alloc: Global, words: &mut Words<'_>) -> Result<u64, CaseFault> {
    parsed(alloc, words.must_value("at")?)
}
