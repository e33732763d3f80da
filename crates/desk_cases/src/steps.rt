//! The steps, each by its first word. Moments are microseconds.
//!
//! Of the client:
//!
//! - `command JSON` adds a command, a line of a script as `script_text` reads it, to those of the next client; they count from 0;
//! - `client URI [at=MOMENT]` makes it, at moment 0 where none is told; the peers forget what they were told;
//! - `check HOST at=MOMENT` steps the check of a host, `NAME` for the last one of that name or `NAME/NUMBER`;
//! - `op N at=MOMENT [a=WORD] [b=WORD] [c=WORD] [d=WORD]` steps a command, the next one of its lane, with these words: `a` and `b`
//!   are 0, `c` and `d` the command's number and one more, where they are not told;
//! - `next LANE` asks which command of a lane comes next;
//! - `due` asks which check comes next, and `finish at=MOMENT` ends the client.
//!
//! The others are those of [`told_step`](crate::telling::told_step), which tell peers what they do.
use crate::calls::made;
use crate::scripts::Script;
use crate::state::{State, Told};
use crate::telling::told_step;
use case_files::{CaseFault, Words, parsed};
use std::alloc::Global;
use std::mem;

/// Takes the step of these words.
pub fn step_of(
    alloc: Global,
    state: &mut State<'_>,
    words: &mut Words<'_>,
) -> Result<Told, CaseFault> {
    match words.next_as("step")? {
        "command" => command(alloc, state, words),
        "client" => client(alloc, state, words),
        "check" => check(alloc, state, words),
        "op" => op(alloc, state, words),
        "next" => next(alloc, state, words),
        "due" => due(state),
        "finish" => finish(alloc, state, words),
        verb => told_step(alloc, state, verb, words),
    }
}

/// Steps the check of a host.
fn check(alloc: Global, state: &mut State<'_>, words: &mut Words<'_>) -> Result<Told, CaseFault> {
    let host = words.next_as("host")?;
    let moment = moment(alloc, words)?;
    words.end(alloc)?;
    state.client.check(alloc, host, moment)
}

/// Adds a command to those of the next client.
fn command(alloc: Global, state: &mut State<'_>, words: &mut Words<'_>) -> Result<Told, CaseFault> {
    let count = state.script.add(alloc, words)?;
    Ok(Told::Count("commands", count))
}

/// Steps a command.
fn op(alloc: Global, state: &mut State<'_>, words: &mut Words<'_>) -> Result<Told, CaseFault> {
    let op: u32 = parsed(alloc, words.next_as("command")?)?;
    let moment = moment(alloc, words)?;
    let drawn = drawn(alloc, words, op)?;
    words.end(alloc)?;
    state.client.op(alloc, op, moment, drawn)
}

/// The words of a command's step.
fn drawn(alloc: Global, words: &mut Words<'_>, op: u32) -> Result<desk_core::Words, CaseFault> {
    let own = u64::from(op).saturating_add(1);
    Ok(desk_core::Words {
        a: words.number(alloc, "a")?.unwrap_or(0),
        b: words.number(alloc, "b")?.unwrap_or(0),
        c: words.number(alloc, "c")?.unwrap_or(own),
        d: words.number(alloc, "d")?.unwrap_or(own),
    })
}

/// Asks which command of a lane comes next.
fn next(alloc: Global, state: &State<'_>, words: &mut Words<'_>) -> Result<Told, CaseFault> {
    let lane: u32 = parsed(alloc, words.next_as("lane")?)?;
    state.client.next_of(lane)
}

/// Asks which check comes next, of which the facts tell.
fn due(state: &State<'_>) -> Result<Told, CaseFault> {
    match state.client.log() {
        Some(_) => Ok(Told::Client),
        None => Err(CaseFault::Refused("no client is there")),
    }
}

/// Ends the client.
fn finish(alloc: Global, state: &mut State<'_>, words: &mut Words<'_>) -> Result<Told, CaseFault> {
    let moment = moment(alloc, words)?;
    words.end(alloc)?;
    state.client.finish(alloc, moment)
}

fn moment(alloc: Global, words: &mut Words<'_>) -> Result<u64, CaseFault> {
    parsed(alloc, words.must_value("at")?)
}

/// Makes the client, with the commands that were added since the last one.
fn client(alloc: Global, state: &mut State<'_>, words: &mut Words<'_>) -> Result<Told, CaseFault> {
    let text = words.next_as("connection string")?;
    let moment = words.number(alloc, "at")?.unwrap_or(0);
    words.end(alloc)?;
    let script = mem::replace(&mut state.script, Script::new(alloc));
    let commands = script.commands(alloc)?;
    state.client = made(alloc, state.peers, text, commands, moment)?;
    state.next.set(0);
    Ok(Told::Client)
}
