ghost use Rattle.std.specs.Prelude.{◌≡◌, ℕ, ◌+◌, ◌-◌, ◌^◌, ◌<◌, ◌≤◌, true, false, IfNone, IfSome, is_some};
ghost use Rattle.pool_book.specs.Pool.{Pool, fresh_pool, ticket_of, held_of, is_closed, is_paused, is_perished};
ghost use Rattle.pool_book.specs.Entries as entry;
ghost use Rattle.pool_book.specs.Answers.{IsWaitLimit};
ghost use Rattle.pool_book.specs.Judge.{Goes};

use crate::available_list::AvailableList;
use crate::held_list::HeldList;
use crate::last_rows::LastRows;
use crate::rules::is_stale;
use crate::ticket_line::TicketLine;
use crate::{Available, Held, PoolRules, PoolState, Ticket};
use std::alloc::Global;
use std::marker::Model;

mod check_in;
mod check_out;

/// A connection pool of one server.
///
/// ```text
/// The pool
///                        ready
///    new ---> Paused ------------> Ready
///             ^ |  ^                | |
///     clear   | |  +----- clear ----+ |
///     (the    +-+                     |
///  generation   | close               | close
///     alone)    +-----> Closed <------+
///                       ^    |
///                       +----+ clear (the generation alone)
///
/// A connection
///             try_take: Dial          established: Lent          check_in: Kept
///    (none) -----------------> pending -----------------> lent -------------------> available
///                                 |                        |  <-------------------    |
///                                 | established: Stale     |      try_take: Lent      | sweep
///                                 | lost                   | check_in: Shut           | close
///                                 v                        v                          v
///                               (shut)                   (shut)                     (shut)
/// ```
///
/// Contracts see it as a `Pool`: its rules, state and generation, the tickets that wait, the connections that are
/// pending, lent and available, and how many tickets and connections had numbers so far.
#[derive(Debug, Drop)]
pub struct PoolBook {
    rules: PoolRules,
    state: PoolState,
    generation: u64,
    line: TicketLine,
    pending: HeldList,
    lent: HeldList,
    available: AvailableList,
    dialled: u64,
    last_rows: LastRows,
}

impl Model for PoolBook {
    ghost use Rattle.pool_book.specs.Pool.{Pool};

    ghost Value = { Pool };

    ghost use Rattle.pool_book.specs.Inside.{pool_of, IsKept};

    ghost view = { pool_of };

    ghost invariant = { IsKept };
}

impl PoolBook {
    /// A paused pool of generation 0 with nothing in it. It takes no memory.
    pub fn new(alloc: Global, rules: PoolRules) -> PoolBook
        requires size { 1 ≤ rules.max_size }
        requires connecting { 1 ≤ rules.max_connecting }
        ensures { result ≡ fresh_pool rules }
    {
        PoolBook {
            rules,
            state: PoolState::Paused,
            generation: 0,
            line: TicketLine::new(alloc),
            pending: HeldList::new(alloc),
            lent: HeldList::new(alloc),
            available: AvailableList::new(alloc),
            dialled: 0,
            last_rows: LastRows::new(alloc),
        }
    }

    /// How often the pool was cleared.
    pub fn generation(&self) -> u64
        ensures { result ≡ self.now.generation }
    {
        self.generation
    }

    pub fn state(&self) -> PoolState
        ensures { result ≡ self.now.state }
    {
        self.state
    }

    /// How many tickets entered, which is the next one's number.
    pub fn entered(&self) -> u64
        ensures { result ≡ self.now.entered }
    {
        self.line.given()
    }

    /// The connections that are available, in the order in which they were checked in.
    pub fn available(&self) -> &[Available]
        ensures { result.now ≡ self.now.available }
    {
        self.available.as_slice()
    }

    /// Whether a connection that is available has perished at a moment: the pool was cleared since it was dialled, or it has
    /// been available for longer than the rules allow (CMAP, a connection is perished).
    pub fn is_perished(&self, available: &Available, moment: u64) -> bool
        ensures { result ≡ is_perished self.now moment available.now }
    {
        is_stale(self.generation, available.generation)
            || self.rules.is_idle(available.since, moment)
    }

    /// Whether the ticket is in the line.
    pub fn is_waiting(&self, ticket: &Ticket) -> bool
        ensures { result ≡ is_some (ticket_of ticket.now.number self.now.waiting) }
    {
        self.line.find(ticket.number).is_some()
    }

    /// Until when the ticket of a number waits at most, in microseconds: the rules' limit behind its entry (CMAP,
    /// waitQueueTimeoutMS). None where no ticket of that number waits, or past u64's greatest number.
    pub fn wait_limit(&self, number: u64) -> Option<u64>
        ensures until { IfSome result (λ until. IsWaitLimit self.now number until) }
        ensures none { IfNone result ((until : ℕ) → IsWaitLimit self.now number until → 2 ^ 64 ≤ until) }
    {
        let ticket = self.line.find(number)?;
        ticket.entered.checked_add(self.rules.wait_micros)
    }

    /// Whether the connection is pending.
    pub fn is_pending(&self, conn: u64) -> bool
        ensures { result ≡ is_some (held_of conn self.now.pending) }
    {
        self.find_pending(conn).is_some()
    }

    /// Whether the connection is lent.
    pub fn is_lent(&self, conn: u64) -> bool
        ensures { result ≡ is_some (held_of conn self.now.lent) }
    {
        self.find_lent(conn).is_some()
    }

    /// A connection that is pending, with its ticket and its generation; None where it is not.
    pub fn find_pending(&self, conn: u64) -> Option<Held>
        ensures held { result ≡ held_of conn self.now.pending }
    {
        self.pending.find(conn, self.last_rows.row_of(conn))
    }

    /// A connection that is lent, with its ticket and its generation; None where it is not.
    pub fn find_lent(&self, conn: u64) -> Option<Held>
        ensures held { result ≡ held_of conn self.now.lent }
    {
        self.lent.find(conn, self.last_rows.row_of(conn))
    }

    /// Makes a paused pool ready (CMAP, Marking a Connection Pool as Ready). Another pool stays as it is.
    pub fn ready(&mut self)
        ensures opens { is_paused self.old.state ≡ true → (moment : ℕ) → Goes self.old moment entry.Ready self.new }
        ensures same { is_paused self.old.state ≡ false → self.new ≡ self.old }
    {
        if self.state == PoolState::Paused {
            self.state = PoolState::Ready;
        }
    }

    /// Raises the generation by one and pauses a ready pool (CMAP, Clearing a Connection Pool). Of a closed pool it
    /// raises the generation alone.
    pub fn clear(&mut self)
        requires { self.old.generation < 2 ^ 64 - 1 }
        ensures { (moment : ℕ) → Goes self.old moment entry.Clear self.new }
    {
        self.generation += 1;
        if self.state == PoolState::Ready {
            self.state = PoolState::Paused;
        }
    }

    /// Closes the pool for good (CMAP, Closing a Connection Pool): no connection is available any more, and those that
    /// were, which [`PoolBook::available`] tells beforehand, are to be shut as `PoolClosed`. A closed pool stays as it
    /// is.
    pub fn close(&mut self)
        ensures closes { is_closed self.old.state ≡ false → (moment : ℕ) → Goes self.old moment entry.Shut self.new }
        ensures same { is_closed self.old.state ≡ true → self.new ≡ self.old }
    {
        if self.state != PoolState::Closed {
            self.state = PoolState::Closed;
            self.available.clear();
        }
    }
}
