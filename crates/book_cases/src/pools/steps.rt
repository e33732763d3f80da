//! The steps, each by its first word. Tickets go by their numbers, moments and spans are microseconds:
//!
//! - `pool size=N connecting=N [idle=N] [wait=N]` is a new pool under these rules;
//! - `ready`, `clear` and `close`;
//! - `enter at=MOMENT`, `take TICKET at=MOMENT` and `leave TICKET`;
//! - `established CONN` and `lost CONN` of a pending connection, `check_in CONN at=MOMENT [errored]` of a lent one, and `sweep
//!   at=MOMENT`;
//! - `line` is a new line, `join` gives its next number, and `quit NUMBER` takes a number out.
use crate::pools::calls::{check_in, clear, enter, established, lost, sweep, take};
use crate::pools::lines::join;
use crate::pools::state::{State, Told};
use case_files::{CaseFault, Words, parsed};
use pool_book::{PoolBook, PoolRules, Ticket};
use std::alloc::Global;
use wait_line::WaitLine;

/// Takes the step of these words.
pub fn step_of(alloc: Global, state: &mut State, words: &mut Words<'_>) -> Result<Told, CaseFault> {
    let verb = words.next_as("step")?;
    match verb {
        "pool" => {
            state.book = pool(alloc, words)?;
            Ok(Told::Done)
        }
        "ready" => {
            state.book.ready();
            Ok(Told::Done)
        }
        "clear" => clear(&mut state.book),
        "close" => {
            state.book.close();
            Ok(Told::Done)
        }
        "sweep" => Ok(sweep(&mut state.book, moment(alloc, words)?)),
        "line" => {
            state.line = WaitLine::new(alloc);
            Ok(Told::Line)
        }
        "join" => join(&mut state.line),
        "quit" => {
            state.line.leave(number(alloc, words, "number")?);
            Ok(Told::Line)
        }
        _ => step_of_ticket(alloc, &mut state.book, verb, words),
    }
}

/// The steps about one ticket or connection.
fn step_of_ticket(
    alloc: Global,
    book: &mut PoolBook,
    verb: &str,
    words: &mut Words<'_>,
) -> Result<Told, CaseFault> {
    match verb {
        "enter" => enter(book, moment(alloc, words)?),
        "take" => {
            let ticket = ticket(alloc, words)?;
            take(book, &ticket, moment(alloc, words)?)
        }
        "leave" => {
            book.leave(ticket(alloc, words)?);
            Ok(Told::Done)
        }
        "established" => established(book, number(alloc, words, "connection")?),
        "lost" => lost(book, number(alloc, words, "connection")?),
        "check_in" => {
            let conn = number(alloc, words, "connection")?;
            let moment = moment(alloc, words)?;
            check_in(book, conn, moment, words.flag("errored"))
        }
        _ => Err(CaseFault::word(alloc, verb)),
    }
}

fn pool(alloc: Global, words: &mut Words<'_>) -> Result<PoolBook, CaseFault> {
    let rules = PoolRules {
        max_size: parsed(alloc, words.must_value("size")?)?,
        max_connecting: parsed(alloc, words.must_value("connecting")?)?,
        idle_micros: words.number(alloc, "idle")?.unwrap_or(0),
        wait_micros: words.number(alloc, "wait")?.unwrap_or(0),
    };
    if rules.max_size == 0 || rules.max_connecting == 0 {
        return Err(CaseFault::Refused("a pool of no connection"));
    }
    Ok(PoolBook::new(alloc, rules))
}

fn moment(alloc: Global, words: &mut Words<'_>) -> Result<u64, CaseFault> {
    parsed(alloc, words.must_value("at")?)
}

fn number(alloc: Global, words: &mut Words<'_>, what: &'static str) -> Result<u64, CaseFault> {
    parsed(alloc, words.next_as(what)?)
}

/// The ticket of this number; a book knows tickets by their numbers.
fn ticket(alloc: Global, words: &mut Words<'_>) -> Result<Ticket, CaseFault> {
    Ok(Ticket {
        number: number(alloc, words, "ticket")?,
        generation: 0,
        entered: 0,
    })
}
