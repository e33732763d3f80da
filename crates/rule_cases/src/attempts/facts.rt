//! The facts. Behind an event stands what is to be done `next`: `next select`, `next check_out HOST`, `next send`, `next
//! read`, `next answer OUTCOME`, or `not_allowed`. Behind a run stand its `answer OUTCOME`, how many servers were to be
//! selected (`selects`) and how often the command was to be sent (`sends`). Behind what happens to checks stand when one is
//! `due` and when the one that runs `began`; `again yes` or `again no` stands behind `again`.
use crate::attempts::state::{State, Told};
use case_files::{CaseFault, Memory};
use std::alloc::Global;
use write_retry::{Next, Outcome};

/// The fact of that name behind the last step.
pub fn fact_of(alloc: Global, state: &State, name: &str) -> Result<Option<String>, CaseFault> {
    let fact = match (state.told, name) {
        (Told::Next(next), "next") => next_text(alloc, next)?,
        (Told::NotAllowed, "not_allowed") => String::from_str(alloc, "not_allowed")?,
        (Told::Run(run), "answer") => outcome_text(alloc, "answer", run.answer)?,
        (Told::Run(run), "selects") => format!(in alloc; "selects {}", run.selects)?,
        (Told::Run(run), "sends") => format!(in alloc; "sends {}", run.sends)?,
        (Told::Again(true), "again") => String::from_str(alloc, "again yes")?,
        (Told::Again(false), "again") => String::from_str(alloc, "again no")?,
        (Told::Checks, "due") => format!(in alloc; "due {}", state.watch.due())?,
        (Told::Checks, "began") => began_text(alloc, state.watch.began())?,
        _ => return Ok(None),
    };
    Ok(Some(fact))
}

fn began_text(alloc: Global, began: Option<u64>) -> Result<String, Memory> {
    match began {
        Some(moment) => format!(in alloc; "began {moment}"),
        None => String::from_str(alloc, "began none"),
    }
}

fn next_text(alloc: Global, next: Next) -> Result<String, Memory> {
    match next {
        Next::Select => String::from_str(alloc, "next select"),
        Next::CheckOut { host } => format!(in alloc; "next check_out {host}"),
        Next::Send => String::from_str(alloc, "next send"),
        Next::Read => String::from_str(alloc, "next read"),
        Next::Answer(outcome) => outcome_text(alloc, "next answer", outcome),
    }
}

/// What the server said of a command.
fn outcome_text(alloc: Global, front: &str, outcome: Outcome) -> Result<String, Memory> {
    match outcome {
        Outcome::Ok { n, modified } => format!(in alloc; "{front} ok {n} {modified}"),
        Outcome::Error { code } => format!(in alloc; "{front} error {code}"),
        Outcome::WriteErrors { count, first } => {
            format!(in alloc; "{front} write_errors {count} {first}")
        }
        Outcome::Concern { code } => format!(in alloc; "{front} concern {code}"),
        _ => unanswered_text(alloc, front, outcome),
    }
}

/// Why the server said nothing of a command.
fn unanswered_text(alloc: Global, front: &str, outcome: Outcome) -> Result<String, Memory> {
    match outcome {
        Outcome::Network => format!(in alloc; "{front} network"),
        Outcome::Late => format!(in alloc; "{front} late"),
        Outcome::BadReply { at } => format!(in alloc; "{front} bad_reply {at}"),
        Outcome::NoServer => format!(in alloc; "{front} no_server"),
        Outcome::Incompatible { host, min, max } => {
            format!(in alloc; "{front} incompatible {host} {min} {max}")
        }
        _ => unsent_text(alloc, front, outcome),
    }
}

/// Why a command was not sent.
fn unsent_text(alloc: Global, front: &str, outcome: Outcome) -> Result<String, Memory> {
    match outcome {
        Outcome::PoolTimeout => format!(in alloc; "{front} pool_timeout"),
        Outcome::PoolCleared { generation } => {
            format!(in alloc; "{front} pool_cleared {generation}")
        }
        Outcome::PoolClosed { host } => format!(in alloc; "{front} pool_closed {host}"),
        Outcome::TooLarge { size, most } => format!(in alloc; "{front} too_large {size} {most}"),
        _ => format!(in alloc; "{front} {outcome:?}"),
    }
}
