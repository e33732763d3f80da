use crate::sessions::facts::fact_of;
use crate::sessions::steps::step_of;
use bson_doc::Lsid;
use case_files::{CaseFault, Subject, Words};
use sess_book::{Lease, Pair, SessBook};
use std::alloc::Global;
use time_gossip::TimeGossip;

/// What the steps made.
#[derive(Drop)]
pub struct State {
    /// The sessions.
    pub book: SessBook,
    /// The leases in the order in which they were given, None for one that was given back.
    pub leases: Vec<Option<Lease>>,
    /// The cluster time.
    pub gossip: TimeGossip,
    /// What the last step answered.
    pub told: Told,
}

/// What a step answered.
#[derive(Clone, Copy)]
pub enum Told {
    /// A call without an answer was made.
    Done,
    /// The lease of this number is of a session with this id that was made for it.
    Fresh(usize, Lsid),
    /// The lease of this number is of a session with this id that was kept.
    Again(usize, Lsid),
    /// A session had this id before.
    Repeated(Lsid),
    /// A transaction number was drawn.
    Drew(Pair),
    /// A session that was given back is kept.
    Kept,
    /// A session that was given back is not kept.
    Dropped,
}

impl State {
    /// No session and no cluster time.
    pub fn opened(alloc: Global) -> State {
        State {
            book: SessBook::new(alloc),
            leases: Vec::new(alloc),
            gossip: TimeGossip::new(),
            told: Told::Done,
        }
    }
}

impl Subject for State {
    fn begin(&mut self, alloc: Global) -> Result<(), CaseFault> {
        *self = State::opened(alloc);
        Ok(())
    }

    fn step(&mut self, alloc: Global, words: &mut Words<'_>) -> Result<(), CaseFault> {
        self.told = step_of(alloc, self, words)?;
        Ok(())
    }

    fn fact(&self, alloc: Global, name: &str) -> Result<Option<String>, CaseFault> {
        fact_of(alloc, self, name)
    }
}
