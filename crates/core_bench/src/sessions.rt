//! How long `sess_book` takes to lease a session, draw a number and take the session back.
//!
//! `sessions OUT ROUNDS` leases that many sessions, leases one more, draws from it and gives it back ROUNDS times, and prints the
//! nanoseconds that one of these rounds took in the quickest of five batches, and the sessions that are out.

ghost use Rattle.std.specs.Prelude.{◌≢◌, IfSome};

use crate::timing::quickest;
use crate::trouble::Trouble;
use crate::words::{number, rounds};
use sess_book::{Holding, Lease, Leased, SessBook};
use std::alloc::Global;
use std::env::Args;

/// The most sessions that are out.
const MOST_OUT: u32 = 1_000_000;

/// The minutes without use after which a server ends a session (Driver Sessions, logicalSessionTimeoutMinutes).
const MINUTES: i64 = 30;

/// What is measured.
#[derive(Clone, Copy, Drop)]
struct Asked {
    /// How many sessions are out.
    out: u32,
    /// How often one more is leased.
    rounds: u32,
}

/// Measures what the words ask for.
pub fn measure(rt: &HostRuntime, words: &mut Args) -> Result<(), Trouble> {
    let asked = parsed(words).ok_or(Trouble::Words)?;
    let mut book = SessBook::new(rt.alloc());
    let leases = leased(rt.alloc(), &mut book, asked.out).ok_or(Trouble::Answer)?;
    let best = quickest(rt, asked.rounds, |_| round(&mut book))?;
    let _ = println!(rt; "round {best} {}", leases.len());
    Ok(())
}

/// What the words ask for: at most a million sessions, and at least one round.
fn parsed(words: &mut Args) -> Option<Asked>
    ensures { IfSome result (λ m. m.rounds ≢ 0) }
{
    let out = number(words, 0, MOST_OUT)?;
    let rounds = rounds(words)?;
    Some(Asked { out, rounds })
}

/// So many sessions that are out.
fn leased(alloc: Global, book: &mut SessBook, out: u32) -> Option<Vec<Lease>> {
    let mut leases = Vec::new(alloc);
    push_leases(book, &mut leases, out)?;
    Some(leases)
}

/// Leases so many sessions.
fn push_leases(book: &mut SessBook, leases: &mut Vec<Lease>, out: u32) -> Option<()> {
    for word in 0..out {
        let lease = take(book, u64::from(word))?;
        leases.push(lease).ok()?;
    }
    Some(())
}

/// Leases a session, with the id of the word where one is made.
fn take(book: &mut SessBook, word: u64) -> Option<Lease> {
    let moment = book.last();
    match book.take(moment, MINUTES, word, word).ok()? {
        Leased::Lease(lease) => Some(lease),
        Leased::Repeated(_) => None,
    }
}

/// Leases a session, draws from it and gives it back.
fn round(book: &mut SessBook) -> Option<()> {
    let mut lease = take(book, u64::MAX)?;
    if book.holding(&lease) != Holding::Leased {
        return None;
    }
    let _ = book.draw(&mut lease);
    if book.holding(&lease) == Holding::Nobody {
        return None;
    }
    let moment = book.last();
    book.give_back(lease, moment, false).then_some(())
}
