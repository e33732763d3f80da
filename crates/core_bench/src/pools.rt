//! How long a busy pool of `pool_book` takes for a check-out and a check-in.
//!
//! `pools WAITING AVAILABLE LENT ROUNDS` makes a pool in which so many tickets wait and so many connections are available and
//! lent. In a round the first ticket is lent a connection, the connection that was lent ahead of all others is checked in, and a
//! ticket enters; ahead of it a sweep finds nothing. It prints the nanoseconds of a round, and those of a sweep alone that finds
//! nothing, in the quickest of five batches of ROUNDS.

ghost use Rattle.std.specs.Prelude.{◌≡◌, ◌≢◌, true, IfSome};
ghost use Rattle.pool_book.specs.Pool.{is_swept};

use crate::timing::quickest;
use crate::trouble::Trouble;
use crate::words::{number, rounds};
use pool_book::{PoolBook, PoolRules, Settled, Take, Ticket};
use std::alloc::Global;
use std::collections::VecDeque;
use std::env::Args;

/// The most tickets that wait, and the most connections that are available or lent.
const MOST: u32 = 1_000_000;

/// What is measured.
#[derive(Clone, Copy, Drop)]
struct Asked {
    /// How many tickets wait.
    waiting: u32,
    /// How many connections are available.
    available: u32,
    /// How many connections are lent.
    lent: u32,
    /// How often one more is lent.
    rounds: u32,
}

/// A pool, the tickets that wait in it, and the connections that are lent, each in the order in which they became so.
#[derive(Drop)]
struct Busy {
    pool: PoolBook,
    tickets: VecDeque<Ticket>,
    lent: VecDeque<u64>,
}

/// Measures what the words ask for.
pub fn measure(rt: &HostRuntime, words: &mut Args) -> Result<(), Trouble> {
    let asked = parsed(words).ok_or(Trouble::Words)?;
    let mut busy = filled(rt.alloc(), asked).ok_or(Trouble::Answer)?;
    measure_in(rt, asked.rounds, &mut busy)
}

/// How long a round and a sweep take in a busy pool.
fn measure_in(rt: &HostRuntime, rounds: u32, busy: &mut Busy) -> Result<(), Trouble>
    requires { rounds ≢ 0 }
{
    let round = quickest(rt, rounds, |_| round(busy))?;
    let sweep = quickest(rt, rounds, |_| sweep(&mut busy.pool))?;
    let _ = println!(rt; "round {round} sweep {sweep}");
    Ok(())
}

/// What the words ask for: at most a million of each, one connection at least that is available, and one round at least.
fn parsed(words: &mut Args) -> Option<Asked>
    ensures { IfSome result (λ m. m.rounds ≢ 0) }
{
    let waiting = number(words, 0, MOST)?;
    let available = number(words, 1, MOST)?;
    let lent = number(words, 0, MOST)?;
    let rounds = rounds(words)?;
    Some(Asked {
        waiting,
        available,
        lent,
        rounds,
    })
}

/// A pool in which so many tickets and one more wait, and so many connections are available and lent.
fn filled(alloc: Global, asked: Asked) -> Option<Busy> {
    let rules = PoolRules {
        max_size: 3 * MOST,
        max_connecting: 1,
        idle_micros: 60_000_000,
        wait_micros: 60_000_000,
    };
    let mut busy = Busy {
        pool: PoolBook::new(alloc, rules),
        tickets: VecDeque::new(alloc),
        lent: VecDeque::new(alloc),
    };
    busy.pool.ready();
    fill(&mut busy, asked)?;
    Some(busy)
}

/// Lends so many connections, has so many come back and so many tickets enter.
fn fill(busy: &mut Busy, asked: Asked) -> Option<()> {
    for _ in 0..asked.lent {
        dial(busy)?;
    }
    for _ in 0..asked.available {
        dial(busy)?;
    }
    for _ in 0..asked.available {
        let conn = busy.lent.pop_back()?;
        check_in(&mut busy.pool, conn)?;
    }
    for _ in 0..asked.waiting {
        enter(busy)?;
    }
    enter(busy)
}

/// A ticket enters, dials, and is lent the connection.
fn dial(busy: &mut Busy) -> Option<()> {
    enter(busy)?;
    let Take::Dial { conn } = take_out(busy)? else {
        return None;
    };
    if !busy.pool.is_pending(conn) || busy.pool.established(conn) != Settled::Lent {
        return None;
    }
    busy.lent.push_back(conn).ok()
}

/// A ticket enters.
fn enter(busy: &mut Busy) -> Option<()> {
    if busy.pool.entered() == u64::MAX {
        return None;
    }
    let ticket = busy.pool.enter(0).ok()?;
    busy.tickets.push_back(ticket).ok()
}

/// What the first ticket gets.
fn take_out(busy: &mut Busy) -> Option<Take> {
    let ticket = busy.tickets.pop_front()?;
    sweep(&mut busy.pool)?;
    if !busy.pool.is_waiting(&ticket) {
        return None;
    }
    Some(busy.pool.try_take(&ticket, 0))
}

/// A sweep that finds nothing.
fn sweep(pool: &mut PoolBook) -> Option<()>
    ensures { IfSome result (λ _. is_swept pool.new 0 ≡ true) }
{
    match pool.sweep(0) {
        Some(_) => None,
        None => Some(()),
    }
}

/// A lent connection comes back.
fn check_in(pool: &mut PoolBook, conn: u64) -> Option<()> {
    if !pool.is_lent(conn) {
        return None;
    }
    pool.check_in(conn, 0, false);
    Some(())
}

/// The first ticket is lent a connection, the one that was lent ahead of all others comes back, and a ticket enters.
fn round(busy: &mut Busy) -> Option<()> {
    let Take::Lent { conn } = take_out(busy)? else {
        return None;
    };
    busy.lent.push_back(conn).ok()?;
    let first = busy.lent.pop_front()?;
    check_in(&mut busy.pool, first)?;
    enter(busy)
}
