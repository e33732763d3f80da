//! The steps, each by its first word. Leases go by their numbers, from 0; moments are microseconds:
//!
//! - `book` is a new book of sessions;
//! - `take at=MOMENT minutes=N w1=WORD w2=WORD`, `draw LEASE`, and `give_back LEASE at=MOMENT [dirty]`;
//! - `sessions COUNT at=MOMENT` takes so many sessions, with the words 0 and up, and gives all back;
//! - `time STAMP MARK` is a cluster time that comes, with a mark that tells it from another one of its stamp.
use crate::sessions::calls::{cluster_time, draw, give_back, many, take};
use crate::sessions::state::{State, Told};
use case_files::{CaseFault, Words, parsed};
use sess_book::SessBook;
use std::alloc::Global;

/// Takes the step of these words.
pub fn step_of(alloc: Global, state: &mut State, words: &mut Words<'_>) -> Result<Told, CaseFault> {
    let verb = words.next_as("step")?;
    match verb {
        "book" => {
            state.book = SessBook::new(alloc);
            state.leases = Vec::new(alloc);
            Ok(Told::Done)
        }
        "take" => {
            let moment = moment(alloc, words)?;
            let minutes = parsed(alloc, words.must_value("minutes")?)?;
            let w1 = parsed(alloc, words.must_value("w1")?)?;
            let w2 = parsed(alloc, words.must_value("w2")?)?;
            take(&mut state.book, &mut state.leases, moment, minutes, w1, w2)
        }
        "draw" => {
            let number = number(alloc, words, "lease")?;
            draw(&mut state.book, &mut state.leases, number)
        }
        "give_back" => {
            let number = number(alloc, words, "lease")?;
            let moment = moment(alloc, words)?;
            let dirty = words.flag("dirty");
            give_back(&mut state.book, &mut state.leases, number, moment, dirty)
        }
        "sessions" => {
            let count = parsed(alloc, words.next_as("count")?)?;
            let moment = moment(alloc, words)?;
            many(alloc, &mut state.book, count, moment)
        }
        "time" => {
            let stamp = parsed(alloc, words.next_as("stamp")?)?;
            let mark = parsed(alloc, words.next_as("mark")?)?;
            state.gossip.advance(cluster_time(alloc, stamp, mark)?);
            Ok(Told::Done)
        }
        _ => Err(CaseFault::word(alloc, verb)),
    }
}

fn moment(alloc: Global, words: &mut Words<'_>) -> Result<u64, CaseFault> {
    parsed(alloc, words.must_value("at")?)
}

fn number(alloc: Global, words: &mut Words<'_>, what: &'static str) -> Result<usize, CaseFault> {
    parsed(alloc, words.next_as(what)?)
}
