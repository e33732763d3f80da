use crate::attempts::facts::fact_of;
use crate::attempts::steps::step_of;
use case_files::{CaseFault, Subject, Words};
use std::alloc::Global;
use watch_step::Watch;
use write_retry::{Next, OpMachine, Outcome};

/// What the steps made.
#[derive(Drop)]
pub struct State {
    /// One command.
    pub machine: OpMachine,
    /// One server's checks.
    pub watch: Watch,
    /// What the last step told.
    pub told: Told,
}

/// What a step told.
#[derive(Clone, Copy)]
pub enum Told {
    /// What is to be done next.
    Next(Next),
    /// An event that does not answer what is to be done.
    NotAllowed,
    /// What a whole run of a command came to.
    Run(Run),
    /// The checks.
    Checks,
    /// Whether a check that ended so is followed by another at once.
    Again(bool),
}

/// What a whole run of a command came to.
#[derive(Clone, Copy)]
pub struct Run {
    /// Its answer.
    pub answer: Outcome,
    /// How many servers were to be selected.
    pub selects: u32,
    /// How often it was to be sent.
    pub sends: u32,
}

impl State {
    /// A command that writes and may be repeated, and a server that was never checked.
    pub fn opened() -> State {
        let machine = OpMachine::new(true, true);
        let told = Told::Next(machine.next());
        State {
            machine,
            watch: Watch::new(0, 0),
            told,
        }
    }
}

impl Subject for State {
    fn begin(&mut self, _alloc: Global) -> Result<(), CaseFault> {
        *self = State::opened();
        Ok(())
    }

    fn step(&mut self, alloc: Global, words: &mut Words<'_>) -> Result<(), CaseFault> {
        self.told = step_of(alloc, self, words)?;
        Ok(())
    }

    fn fact(&self, alloc: Global, name: &str) -> Result<Option<String>, CaseFault> {
        fact_of(alloc, self, name)
    }
}
