ghost use Rattle.std.specs.Prelude.{◌≡◌, ◌+◌, ◌-◌, ◌^◌, ◌<◌, ◌≤◌, [], ◌∷◌, ◌++◌, length, slice_get, IfOk, OnOk, OnErr, IsSome, IsTrue};
ghost use Rattle.wait_line.specs.Queue.{is_first};
ghost use Rattle.pool_book.specs.Pool.{ticket_of, without_ticket, numbers_of};
ghost use Rattle.pool_book.specs.Parts.{Tickets};

use crate::{Memory, Ticket};
use std::alloc::Global;
use std::collections::VecDeque;
use std::marker::Model;
use wait_line::WaitLine;

/// The line of a pool's tickets: their numbers' line, and beside it each ticket as it entered, at the same place.
#[derive(Debug, Drop)]
pub(crate) struct TicketLine {
    line: WaitLine,
    tickets: VecDeque<Ticket>,
}

impl Model for TicketLine {
    ghost use Rattle.std.specs.Prelude.{◌≡◌};
    ghost use Rattle.pool_book.specs.Pool.{numbers_of};
    ghost use Rattle.pool_book.specs.Parts.{Tickets};

    ghost Value = { Tickets };

    ghost view = { λ l. record { items = l.tickets.items; given = l.line.given } };

    ghost use Rattle.pool_book.specs.Parts.{IsLine};

    ghost invariant = { λ l. IsLine l.line.waiting l.line.given l.tickets.items };
}

impl TicketLine {
    pub(crate) fn new(alloc: Global) -> TicketLine
        ensures { result ≡ record { items = []; given = 0 } }
    {
        TicketLine {
            line: WaitLine::new(alloc),
            tickets: VecDeque::new(alloc),
        }
    }

    pub(crate) fn len(&self) -> usize
        ensures { result ≡ length self.now.items }
    {
        self.tickets.len()
    }

    pub(crate) fn given(&self) -> u64
        ensures { result ≡ self.now.given }
    {
        self.line.given()
    }

    /// Gives the next number to a ticket of this generation and moment, which stands last.
    pub(crate) fn enter(&mut self, generation: u64, moment: u64) -> Result<Ticket, Memory>
        requires { self.old.given < 2 ^ 64 - 1 }
        ensures ticket { IfOk result (λ t. t ≡ record { number = self.old.given; generation = generation; entered = moment }) }
        ensures items { IfOk result (λ t. self.new.items ≡ self.old.items ++ t ∷ []) }
        ensures given { OnOk result (self.new.given ≡ self.old.given + 1) }
        ensures err { OnErr result (self.new ≡ self.old) }
    {
        self.tickets.reserve(1)?;
        let number = self.line.enter()?;
        let ticket = Ticket {
            number,
            generation,
            entered: moment,
        };
        self.tickets.push_back_reserved(ticket);
        Ok(ticket)
    }

    /// The ticket of this number.
    pub(crate) fn find(&self, number: u64) -> Option<Ticket>
        ensures { result ≡ ticket_of number self.now.items }
    {
        let place = self.line.place(number)?;
        self.at(place)
    }

    /// The ticket at this place, counted from the front.
    fn at(&self, place: usize) -> Option<Ticket>
        ensures { result ≡ slice_get self.now.items place }
    {
        self.tickets.get(place).copied()
    }

    pub(crate) fn is_front(&self, number: u64) -> bool
        ensures front { result ≡ is_first (numbers_of self.now.items) number }
        ensures there { IsTrue result → 0 < length self.now.items }
    {
        self.line.is_front(number)
    }

    /// Takes the ticket of this number out.
    pub(crate) fn leave(&mut self, number: u64)
        ensures items { self.new.items ≡ without_ticket number self.old.items }
        ensures given { self.new.given ≡ self.old.given }
        ensures bound { length self.new.items ≤ length self.old.items }
        ensures fewer { IsSome (ticket_of number self.old.items) → length self.new.items + 1 ≤ length self.old.items }
    {
        let Some(place) = self.line.place(number) else {
            return;
        };
        self.line.leave(number);
        self.tickets.remove(place);
    }
}
