ghost use Rattle.std.specs.Prelude.{◌≡◌, ℕ, ◌+◌, ◌-◌, ◌^◌, ◌<◌, ◌≤◌, ◌==◌, true, not, if◌then◌else◌, length, find, Some, None, IfOk, IfSome, IfNone, IsSome, OnSome, OnOk, OnErr};
ghost use Rattle.pool_book.specs.declared.ticket.Ticket.{Ticket};
ghost use Rattle.pool_book.specs.Pool.{Pool, ticket_of, without_ticket, is_swept, has_room};
ghost use Rattle.pool_book.specs.Entries as entry;
ghost use Rattle.pool_book.specs.Entries.{after, ticket_for};
ghost use Rattle.pool_book.specs.Judge.{Goes};
ghost use Rattle.pool_book.specs.Answers.{Answers, answer_due, swept_answer};

use crate::rules::{is_cleared, perish_reason};
use crate::{Held, Memory, PoolBook, PoolState, Swept, Take, Ticket};

impl PoolBook {
    /// A ticket joins the line. The call takes all memory that the ticket's later calls need.
    ///
    /// Where it gets no memory the pool stays as it was.
    pub fn enter(&mut self, moment: u64) -> Result<Ticket, Memory>
        requires { self.old.entered < 2 ^ 64 - 1 }
        ensures ticket { IfOk result (λ t. t ≡ ticket_for self.old moment) }
        ensures ok { OnOk result (Goes self.old moment (entry.Entered self.old.entered) self.new) }
        ensures err { OnErr result (self.new ≡ self.old) }
    {
        let places = self.line.len()
            + self.pending.len()
            + self.lent.len()
            + self.available.len()
            + 1;
        self.pending.reserve_for(places)?;
        self.lent.reserve_for(places)?;
        self.available.reserve_for(places)?;
        self.last_rows.reserve_for(places)?;
        let ticket = self.line.enter(self.generation, moment)?;
        Ok(ticket)
    }

    /// The ticket waits no more. A ticket that is not in the line leaves the pool as it is.
    pub fn leave(&mut self, ticket: Ticket)
        ensures waits { IsSome (ticket_of ticket.number self.old.waiting)
            → (moment : ℕ) → Goes self.old moment (entry.Left ticket.number) self.new }
        ensures absent { ticket_of ticket.number self.old.waiting ≡ None → self.new ≡ self.old }
    {
        self.line.leave(ticket.number);
    }

    /// Takes one perished connection out of the available ones, that which was checked in before the others; None
    /// exactly where none has perished.
    pub fn sweep(&mut self, moment: u64) -> Option<Swept>
        ensures answer { result ≡ swept_answer self.old moment }
        ensures some { IfSome result (λ s. Goes self.old moment (entry.ConnShut s.conn s.reason) self.new) }
        ensures none { IfNone result ((is_swept self.old moment ≡ true) × (self.new ≡ self.old)) }
        ensures fewer { OnSome result (length self.new.available + 1 ≤ length self.old.available) }
    {
        let perished = self
            .available
            .first_perished(self.rules, self.generation, moment)?;
        self.available.remove(perished.conn);
        self.last_rows.forget(perished.conn);
        Some(Swept {
            conn: perished.conn,
            reason: perish_reason(self.generation, perished.generation),
        })
    }

    /// What a ticket of the line gets at this moment (CMAP, Checking Out a Connection). `sweep` comes first, until it
    /// answers `None`.
    ///
    /// Every answer but [`Take::Wait`] takes the ticket out of the line. The ticket is known by its number.
    pub fn try_take(&mut self, ticket: &Ticket, moment: u64) -> Take
        requires waits { IsSome (ticket_of ticket.now.number self.old.waiting) }
        requires swept { is_swept self.old moment ≡ true }
        ensures answer { (t : Ticket) → ticket_of ticket.now.number self.old.waiting ≡ Some t
            → result ≡ answer_due self.old moment t }
        ensures goes { Answers self.old moment ticket.now.number result self.new }
    {
        let number = ticket.number;
        let Some(ticket) = self.ticket(number) else {
            unreachable!();
        };
        let answer = self.answer(&ticket, moment);
        match answer {
            Take::Lent { .. } => self.lend(number),
            Take::Dial { conn } => self.dial(number, conn),
            Take::Cleared { .. } | Take::Closed | Take::Late => self.refuse(number),
            Take::Wait => {}
        }
        answer
    }

    /// The ticket of this number in the line.
    fn ticket(&self, number: u64) -> Option<Ticket>
        ensures { result ≡ ticket_of number self.now.waiting }
    {
        self.line.find(number)
    }

    /// What is due to a ticket.
    fn answer(&self, ticket: &Ticket, moment: u64) -> Take
        ensures { result ≡ answer_due self.now moment ticket.now }
    {
        if self.state == PoolState::Closed {
            return Take::Closed;
        }
        if is_cleared(self.state, self.generation, ticket.generation) {
            return Take::Cleared {
                generation: self.generation,
            };
        }
        if self.line.is_front(ticket.number) {
            if let Some(last) = self.available.last() {
                return Take::Lent { conn: last.conn };
            }
            if self.has_room() {
                return Take::Dial {
                    conn: self.dialled + 1,
                };
            }
        }
        if self.rules.is_late(ticket.entered, moment) {
            Take::Late
        } else {
            Take::Wait
        }
    }

    /// Whether there is room to dial.
    fn has_room(&self) -> bool
        ensures { result ≡ has_room self.now }
    {
        let all = self.pending.len() + self.lent.len() + self.available.len();
        self.rules.may_dial(all, self.pending.len())
    }

    /// Takes a ticket out of the line that gets nothing.
    fn refuse(&mut self, number: u64)
        ensures { self.new ≡ record self.old { waiting = without_ticket number self.old.waiting } }
    {
        self.line.leave(number);
    }

    /// Lends the connection that was checked in last to a ticket of the line.
    fn lend(&mut self, number: u64)
        requires waits { IsSome (ticket_of number self.old.waiting) }
        requires there { 0 < length self.old.available }
        ensures { (moment conn : ℕ) → self.new ≡ after self.old moment (entry.Lent number conn) }
    {
        let Some(last) = self.available.pop() else {
            unreachable!();
        };
        self.line.leave(number);
        let held = Held {
            conn: last.conn,
            ticket: number,
            generation: last.generation,
        };
        self.lent.put(held, &mut self.last_rows);
    }

    /// Gives the next connection to a ticket of the line to dial.
    fn dial(&mut self, number: u64, conn: u64)
        requires waits { IsSome (ticket_of number self.old.waiting) }
        requires next { conn ≡ self.old.dialled + 1 }
        ensures { (moment : ℕ) → self.new ≡ after self.old moment (entry.Dialled number conn) }
    {
        self.line.leave(number);
        let held = Held {
            conn,
            ticket: number,
            generation: self.generation,
        };
        self.pending.put(held, &mut self.last_rows);
        self.dialled = conn;
    }
}
