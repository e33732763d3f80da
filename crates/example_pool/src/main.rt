//! The program `example_pool`: a connection is checked out of a pool, the pool is cleared, and the connection comes back.
//!
//! A `PoolBook` keeps account of one server's pool. It has no sockets, clock or threads: connections are numbers, moments are
//! arguments in microseconds, and who waits asks again. The caller dials where it answers `Dial`, and shuts the socket of each
//! connection that it says is gone.
#![tactic(auto)]

ghost use Rattle.std.specs.Prelude.{◌≡◌, true, IsSome, Some};
ghost use Rattle.pool_book.specs.Pool.{held_of, is_swept};
ghost use Rattle.pool_book.specs.declared.connections.Held.{Held};

use pool_book::{Fate, Memory, PoolBook, PoolRules, Settled, Take};

/// At most two connections, one at a time being dialled; nothing ends by its age.
const RULES: PoolRules = PoolRules {
    max_size: 2,
    max_connecting: 1,
    idle_micros: 0,
    wait_micros: 2_000_000,
};

/// The number of the connection that a pool dials first.
const FIRST: u64 = 1;

fn main(rt: HostRuntime) -> anyhow::Result<()> {
    let mut pool = PoolBook::new(rt.alloc(), RULES);
    println!(rt; "paused: {:?}", check_out(&mut pool, 0)?)?;

    // The server answered hello, so that its pool is ready. The first check-out dials.
    pool.ready();
    println!(rt; "ready: {:?}", check_out(&mut pool, 1)?)?;
    lend_again(&rt, &mut pool)?;
    fail_over(&rt, &mut pool)
}

/// The connection is established, comes back, and goes out again: it is still good.
fn lend_again(rt: &impl Print, pool: &mut PoolBook) -> anyhow::Result<()> {
    println!(rt; "established: {:?}", establish(pool, FIRST))?;
    println!(rt; "kept: {:?}", give_back_lent(pool, FIRST, 2))?;
    println!(rt; "again: {:?}", check_out(pool, 3)?)?;
    Ok(())
}

/// The primary steps down while the connection is out. It is from before the failover, and is not kept; whoever checks out
/// once the server is known again dials anew.
fn fail_over(rt: &impl Print, pool: &mut PoolBook) -> anyhow::Result<()> {
    println!(rt; "generation: {:?}", clear(pool))?;
    println!(rt; "cleared: {:?}", check_out(pool, 4)?)?;
    println!(rt; "kept: {:?}", give_back_lent(pool, FIRST, 5))?;
    pool.ready();
    println!(rt; "ready: {:?}", check_out(pool, 6)?)?;
    Ok(())
}

/// What a check-out gets at a moment. Connections that have perished are taken out ahead of it, since `try_take` requires that
/// none is left; their sockets would be shut here.
fn check_out(pool: &mut PoolBook, moment: u64) -> Result<Option<Take>, Memory> {
    if pool.entered() == u64::MAX {
        return Ok(None);
    }
    let ticket = pool.enter(moment)?;
    sweep(pool, moment);
    if !pool.is_waiting(&ticket) {
        return Ok(None);
    }
    Ok(Some(pool.try_take(&ticket, moment)))
}

/// Takes each connection that has perished out of those that are available.
fn sweep(pool: &mut PoolBook, moment: u64)
    ensures swept { is_swept pool.new moment ≡ true }
{
    'sweeping: while let Some(_swept) = pool.sweep(moment) {}
}

/// A connection that was dialled is established: whether whoever dialled it has it, None where it was not pending.
fn establish(pool: &mut PoolBook, conn: u64) -> Option<Settled> {
    if !pool.is_pending(conn) {
        return None;
    }
    Some(pool.established(conn))
}

/// Clears the pool: its generation behind that, None where it was cleared as often as it can be.
fn clear(pool: &mut PoolBook) -> Option<u64> {
    if pool.generation() == u64::MAX {
        return None;
    }
    pool.clear();
    Some(pool.generation())
}

/// Gives a connection back that may be lent: whether the pool keeps it, None where it was not lent.
fn give_back_lent(pool: &mut PoolBook, conn: u64, moment: u64) -> Option<bool> {
    if !pool.is_lent(conn) {
        return None;
    }
    Some(give_back(pool, conn, moment))
}

/// Gives a lent connection back, and tells whether the pool keeps it for the next one. It keeps none from before a clear.
fn give_back(pool: &mut PoolBook, conn: u64, moment: u64) -> bool
    requires lent { IsSome (held_of conn pool.old.lent) }
    ensures current { (held : Held) → held_of conn pool.old.lent ≡ Some held → result ≡ true → held.generation ≡ pool.old.generation }
{
    pool.check_in(conn, moment, false) == Fate::Kept
}
