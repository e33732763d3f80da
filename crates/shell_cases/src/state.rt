use crate::ahead::Runs;
use crate::facts::fact_of;
use crate::known::Known;
use crate::runs::Run;
use crate::steps::{RUN, name_bytes};
use case_files::{CaseFault, Subject, Words};
use std::alloc::Global;

/// What the steps made.
#[derive(Drop)]
pub struct State {
    /// What the runs that come came to.
    runs: Runs,
    /// The bytes that have names.
    known: Known,
    /// What the last step did.
    told: Told,
}

/// What a step did.
#[derive(Drop)]
pub enum Told {
    /// The bytes of a name, so many by now.
    Named(usize),
    /// A run.
    Ran(Run),
}

impl State {
    /// No bytes have a name yet, and no run was told.
    pub fn opened(alloc: Global, runs: Runs) -> State {
        State {
            runs,
            known: Known::new(alloc),
            told: Told::Named(0),
        }
    }
}

impl Subject for State {
    fn begin(&mut self, alloc: Global) -> Result<(), CaseFault> {
        self.known = Known::new(alloc);
        self.told = Told::Named(0);
        Ok(())
    }

    fn step(&mut self, alloc: Global, words: &mut Words<'_>) -> Result<(), CaseFault> {
        let verb = words.next_as("step")?;
        if verb != RUN {
            self.told = Told::Named(name_bytes(alloc, &mut self.known, verb, words)?);
            return Ok(());
        }
        // Its words were judged when it ran.
        drop(words.rest(alloc));
        match self.runs.pop_front() {
            Some(run) => {
                self.told = Told::Ran(run?);
                Ok(())
            }
            None => Err(CaseFault::Missing("run")),
        }
    }

    fn fact(&self, alloc: Global, name: &str) -> Result<Option<String>, CaseFault> {
        fact_of(alloc, &self.known, &self.told, name)
    }
}
