//! The facts. What a call answered is `done`, `ticket NUMBER GENERATION ENTERED`, `lent CONN`, `dial CONN`, `wait`, `cleared
//! GENERATION`, `closed`, `late`, `established`, `stale GENERATION`, `kept`, `shut REASON`, `swept CONN REASON`, `nothing`, or
//! in a line `number NUMBER`. Behind each call of a pool stand its `state`, its `generation` and how many connections are
//! `available`; behind each of a line who is `waiting` and how many numbers were `given`.
use crate::pools::lines::waiting;
use crate::pools::state::{State, Told};
use case_files::{CaseFault, Memory};
use std::alloc::Global;

/// The fact of that name behind the last step.
pub fn fact_of(alloc: Global, state: &State, name: &str) -> Result<Option<String>, CaseFault> {
    match name {
        "done"
        | "ticket"
        | "lent"
        | "dial"
        | "wait"
        | "cleared"
        | "closed"
        | "late"
        | "established"
        | "stale"
        | "kept"
        | "shut"
        | "swept"
        | "nothing"
        | "number" => { Ok(answer_text(alloc, state.told)?) }
        _ => match state.told {
            Told::Line | Told::Given(_) => Ok(line_fact(alloc, state, name)?),
            _ => Ok(pool_fact(alloc, state, name)?),
        },
    }
}

fn pool_fact(alloc: Global, state: &State, name: &str) -> Result<Option<String>, Memory> {
    let fact = match name {
        "state" => format!(in alloc; "state {:?}", state.book.state())?,
        "generation" => format!(in alloc; "generation {}", state.book.generation())?,
        "available" => format!(in alloc; "available {}", state.book.available().len())?,
        _ => return Ok(None),
    };
    Ok(Some(fact))
}

fn line_fact(alloc: Global, state: &State, name: &str) -> Result<Option<String>, Memory> {
    match name {
        "waiting" => Ok(Some(waiting(alloc, &state.line)?)),
        "given" => Ok(Some(format!(in alloc; "given {}", state.line.given())?)),
        _ => Ok(None),
    }
}

fn answer_text(alloc: Global, told: Told) -> Result<Option<String>, Memory> {
    let text = match told {
        Told::Done => String::from_str(alloc, "done")?,
        Told::Entered(ticket) => {
            let number = ticket.number;
            let generation = ticket.generation;
            let entered = ticket.entered;
            format!(in alloc; "ticket {number} {generation} {entered}")?
        }
        Told::Lent(conn) => format!(in alloc; "lent {conn}")?,
        Told::Dial(conn) => format!(in alloc; "dial {conn}")?,
        Told::Wait => String::from_str(alloc, "wait")?,
        Told::Cleared(generation) => format!(in alloc; "cleared {generation}")?,
        Told::Closed => String::from_str(alloc, "closed")?,
        Told::Late => String::from_str(alloc, "late")?,
        _ => return connection_text(alloc, told),
    };
    Ok(Some(text))
}

/// What a call about a connection, or one of a line, answered.
fn connection_text(alloc: Global, told: Told) -> Result<Option<String>, Memory> {
    let text = match told {
        Told::Established => String::from_str(alloc, "established")?,
        Told::Stale(generation) => format!(in alloc; "stale {generation}")?,
        Told::Kept => String::from_str(alloc, "kept")?,
        Told::Shut(reason) => format!(in alloc; "shut {reason:?}")?,
        Told::Swept(conn, reason) => format!(in alloc; "swept {conn} {reason:?}")?,
        Told::Nothing => String::from_str(alloc, "nothing")?,
        Told::Given(number) => format!(in alloc; "number {number}")?,
        _ => return Ok(None),
    };
    Ok(Some(text))
}
