use crate::event::Event;
use pool_book::{CloseReason, Fate, PoolBook, PoolRules, Settled, Take, Ticket};
use std::alloc::Global;
use std::mem;
use suite_files::{Fault, Memory};

/// A thread that waits for a connection.
#[derive(Clone, Copy)]
struct Waiting<'a> {
    ticket: Ticket,
    /// The thread's name, empty for the file's own.
    thread: &'a str,
    /// The connection's name, where it has one.
    label: Option<&'a str>,
}

/// A pool that is played: its book, the clock, who waits, and the events so far.
#[derive(Drop)]
pub struct Player<'a> {
    book: PoolBook,
    wait_micros: u64,
    moment: u64,
    waiting: Vec<Waiting<'a>>,
    labels: Vec<(&'a str, u64)>,
    events: Vec<Event>,
    error: &'static str,
}

impl<'a> Player<'a> {
    /// A pool that is ready.
    pub fn new(alloc: Global, rules: PoolRules) -> Result<Player<'a>, Fault> {
        if rules.max_size == 0 || rules.max_connecting == 0 {
            return Err(Fault::told(alloc, "a pool of no connection"));
        }
        let mut book = PoolBook::new(alloc, rules);
        book.ready();
        let mut player = Player {
            book,
            wait_micros: rules.wait_micros,
            moment: 0,
            waiting: Vec::new(alloc),
            labels: Vec::new(alloc),
            events: Vec::new(alloc),
            error: "none",
        };
        player.tell(Event::of_pool("ConnectionPoolCreated"))?;
        Ok(player)
    }

    /// The events so far.
    pub fn events(&self) -> &[Event] {
        self.events.as_slice()
    }

    /// The last error of a check-out, by the name that the tests give it.
    pub fn error(&self) -> &'static str {
        self.error
    }

    /// How many events of that name there were.
    pub fn told(&self, kind: &str) -> u64 {
        self.events
            .iter()
            .filter(|event| event.kind == kind)
            .count() as u64
    }

    /// Whether the thread waits.
    pub fn waits(&self, thread: &str) -> bool {
        self.waiting.iter().any(|waiting| waiting.thread == thread)
    }

    /// How many threads wait.
    pub fn line(&self) -> usize {
        self.waiting.len()
    }

    /// A thread asks for a connection, and waits where it gets none.
    pub fn check_out(
        &mut self,
        alloc: Global,
        thread: &'a str,
        label: Option<&'a str>,
    ) -> Result<(), Fault> {
        self.tell(Event::of_pool("ConnectionCheckOutStarted"))?;
        if self.book.entered() == u64::MAX {
            return Err(Fault::told(alloc, "the last ticket"));
        }
        let ticket = self.book.enter(self.moment)?;
        self.waiting.push(Waiting {
            ticket,
            thread,
            label,
        })?;
        self.serve(alloc)
    }

    /// The connection of that name comes back.
    pub fn check_in(&mut self, alloc: Global, label: &str) -> Result<(), Fault> {
        let Some((_, conn)) = self
            .labels
            .iter()
            .rev()
            .find(|held| held.0 == label)
            .copied()
        else {
            return Err(Fault::told(alloc, format_args!("no connection {label}")));
        };
        if !self.book.is_lent(conn) {
            return Err(Fault::told(alloc, format_args!("{label} is not lent")));
        }
        let fate = self.book.check_in(conn, self.moment, false);
        self.tell(Event::of_conn("ConnectionCheckedIn", conn))?;
        if let Fate::Shut(reason) = fate {
            self.tell(Event::closed(conn, reason))?;
        }
        self.serve(alloc)
    }

    /// Clears the pool, and makes it ready again.
    pub fn clear(&mut self, alloc: Global) -> Result<(), Fault> {
        if self.book.generation() == u64::MAX {
            return Err(Fault::told(alloc, "the last generation"));
        }
        self.book.clear();
        self.tell(Event::of_pool("ConnectionPoolCleared"))?;
        self.book.ready();
        self.serve(alloc)
    }

    /// Closes the pool, and first the connections that are available.
    pub fn close(&mut self, alloc: Global) -> Result<(), Fault> {
        for available in self.book.available() {
            let event = Event::closed(available.conn, CloseReason::PoolClosed);
            self.events.push(event)?;
        }
        self.book.close();
        self.tell(Event::of_pool("ConnectionPoolClosed"))?;
        self.serve(alloc)
    }

    /// Time passes, in microseconds.
    pub fn pass(&mut self, alloc: Global, micros: u64) -> Result<(), Fault> {
        self.moment = self.moment.saturating_add(micros);
        self.serve(alloc)
    }

    /// Time passes until the thread that entered first has waited long enough; false where none waits, or without end.
    pub fn pass_on(&mut self, alloc: Global) -> Result<bool, Fault> {
        let Some(first) = self.waiting.first().copied() else {
            return Ok(false);
        };
        if self.wait_micros == 0 {
            return Ok(false);
        }
        let Some(until) = self.book.wait_limit(first.ticket.number) else {
            return Ok(false);
        };
        self.moment = self.moment.max(until);
        self.serve(alloc)?;
        Ok(true)
    }

    /// Sweeps the perished connections, and lets each thread that waits ask, in the order in which they entered.
    fn serve(&mut self, alloc: Global) -> Result<(), Fault> {
        for _ in 0..self.book.available().len() {
            if let Some(swept) = self.book.sweep(self.moment) {
                self.tell(Event::closed(swept.conn, swept.reason))?;
            }
        }
        let line = mem::replace(&mut self.waiting, Vec::new(alloc));
        for waiting in line.iter() {
            if !self.ask(alloc, waiting)? {
                self.waiting.push(*waiting)?;
            }
        }
        Ok(())
    }

    /// A thread asks; whether it waits no more.
    fn ask(&mut self, alloc: Global, waiting: &Waiting<'a>) -> Result<bool, Fault> {
        if !self.book.is_waiting(&waiting.ticket) {
            return Err(Fault::told(alloc, "a thread waits without a ticket"));
        }
        let None = self.book.sweep(self.moment) else {
            return Err(Fault::told(alloc, "a connection is to be swept first"));
        };
        match self.book.try_take(&waiting.ticket, self.moment) {
            Take::Wait => return Ok(false),
            Take::Lent { conn } => self.lent(waiting, conn)?,
            Take::Dial { conn } => self.dial(alloc, waiting, conn)?,
            Take::Cleared { .. } => self.failed("connectionError", "PoolClearedError")?,
            Take::Closed => self.failed("poolClosed", "PoolClosedError")?,
            Take::Late => self.failed("timeout", "WaitQueueTimeoutError")?,
        }
        Ok(true)
    }

    /// A thread has a connection.
    fn lent(&mut self, waiting: &Waiting<'a>, conn: u64) -> Result<(), Memory> {
        if let Some(label) = waiting.label {
            self.labels.push((label, conn))?;
        }
        self.tell(Event::of_conn("ConnectionCheckedOut", conn))
    }

    /// A thread dials a connection, which is established at once.
    fn dial(&mut self, alloc: Global, waiting: &Waiting<'a>, conn: u64) -> Result<(), Fault> {
        self.tell(Event::of_conn("ConnectionCreated", conn))?;
        if !self.book.is_pending(conn) {
            return Err(Fault::told(alloc, "a connection is not pending"));
        }
        match self.book.established(conn) {
            Settled::Lent => {
                self.tell(Event::of_conn("ConnectionReady", conn))?;
                self.lent(waiting, conn)?;
            }
            Settled::Stale { .. } => {
                self.tell(Event::closed(conn, CloseReason::Stale))?;
                self.failed("connectionError", "PoolClearedError")?;
            }
        }
        Ok(())
    }

    /// A thread gets no connection.
    fn failed(&mut self, reason: &'static str, error: &'static str) -> Result<(), Memory> {
        self.error = error;
        self.tell(Event::failed(reason))
    }

    fn tell(&mut self, event: Event) -> Result<(), Memory> {
        self.events.push(event)?;
        Ok(())
    }
}
