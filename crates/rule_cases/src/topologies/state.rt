use crate::servers::placeholder;
use crate::topologies::facts::fact_of;
use crate::topologies::steps::step_of;
use case_files::{CaseFault, Subject, Words};
use hello_reply::{ReplyFault, ServerDescription};
use std::alloc::Global;
use std::cmp::Ordering;
use topo_book::{Taken, TopoBook};
use topo_rules::{Change, Topology};

/// What the steps made.
#[derive(Drop)]
pub struct State {
    /// What the steps `start`, `reply`, `broken` and `refused` are about.
    pub topology: Topology,
    /// What the steps `open` and `offer` are about.
    pub book: TopoBook,
    /// What the last step told.
    pub told: Told,
}

/// What a step told.
#[derive(Drop)]
pub enum Told {
    /// A topology was started.
    Started,
    /// A topology took an event in.
    Changed(Change),
    /// A book was opened.
    Opened,
    /// A book answered an offer.
    Answered(Taken),
    /// A server was described.
    Described(ServerDescription),
    /// A hello reply is at fault.
    AtFault(ReplyFault),
    /// Two topology versions were compared.
    Compared(Ordering),
}

impl State {
    /// A topology and a book before any is started.
    pub fn opened(alloc: Global) -> Result<State, CaseFault> {
        let topology = placeholder(alloc)?;
        let opening = placeholder(alloc)?;
        Ok(State {
            topology,
            book: TopoBook::new(alloc, opening),
            told: Told::Started,
        })
    }
}

impl Subject for State {
    fn begin(&mut self, alloc: Global) -> Result<(), CaseFault> {
        *self = State::opened(alloc)?;
        Ok(())
    }

    fn step(&mut self, alloc: Global, words: &mut Words<'_>) -> Result<(), CaseFault> {
        self.told = step_of(alloc, self, words)?;
        Ok(())
    }

    fn fact(&self, alloc: Global, name: &str) -> Result<Option<String>, CaseFault> {
        fact_of(alloc, self, name)
    }
}
