use crate::pools::facts::fact_of;
use crate::pools::steps::step_of;
use case_files::{CaseFault, Subject, Words};
use pool_book::{CloseReason, PoolBook, PoolRules, Ticket};
use std::alloc::Global;
use wait_line::WaitLine;

/// What the steps made.
#[derive(Drop)]
pub struct State {
    /// The pool.
    pub book: PoolBook,
    /// The line.
    pub line: WaitLine,
    /// What the last step answered.
    pub told: Told,
}

/// What a step answered.
#[derive(Clone, Copy)]
pub enum Told {
    /// A call without an answer was made of the pool.
    Done,
    /// A ticket entered.
    Entered(Ticket),
    /// A ticket is lent this connection.
    Lent(u64),
    /// A ticket has leave to dial this connection.
    Dial(u64),
    /// A ticket gets nothing yet.
    Wait,
    /// A ticket gets nothing: the pool, of this generation, was cleared.
    Cleared(u64),
    /// A ticket gets nothing: the pool is closed.
    Closed,
    /// A ticket gets nothing: it has waited too long.
    Late,
    /// A connection is established.
    Established,
    /// A connection that was established is gone: the pool, of this generation, was cleared or is closed.
    Stale(u64),
    /// A connection that was checked in is kept.
    Kept,
    /// A connection that was checked in is shut.
    Shut(CloseReason),
    /// A perished connection was swept.
    Swept(u64, CloseReason),
    /// Nothing was there to be swept.
    Nothing,
    /// The line was asked or changed.
    Line,
    /// A number was given in the line.
    Given(u64),
}

impl State {
    /// A line without numbers, and a pool of one connection in which nothing is limited.
    pub fn opened(alloc: Global) -> State {
        let rules = PoolRules {
            max_size: 1,
            max_connecting: 1,
            idle_micros: 0,
            wait_micros: 0,
        };
        State {
            book: PoolBook::new(alloc, rules),
            line: WaitLine::new(alloc),
            told: Told::Done,
        }
    }
}

impl Subject for State {
    fn begin(&mut self, alloc: Global) -> Result<(), CaseFault> {
        *self = State::opened(alloc);
        Ok(())
    }

    fn step(&mut self, alloc: Global, words: &mut Words<'_>) -> Result<(), CaseFault> {
        self.told = step_of(alloc, self, words)?;
        Ok(())
    }

    fn fact(&self, alloc: Global, name: &str) -> Result<Option<String>, CaseFault> {
        fact_of(alloc, self, name)
    }
}
