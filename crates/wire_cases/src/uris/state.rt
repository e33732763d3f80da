use crate::uris::facts::fact_of;
use crate::uris::steps::step_of;
use case_files::{CaseFault, Subject, Words};
use conn_uri::{Settings, UriFault};
use std::alloc::Global;

/// What the last step made.
#[derive(Drop)]
pub struct State {
    /// The settings, or why there are none.
    pub told: Result<Settings, UriFault>,
}

impl State {
    /// No settings.
    pub fn opened() -> State {
        State {
            told: Err(UriFault::Scheme),
        }
    }
}

impl Subject for State {
    fn begin(&mut self, _alloc: Global) -> Result<(), CaseFault> {
        *self = State::opened();
        Ok(())
    }

    fn step(&mut self, alloc: Global, words: &mut Words<'_>) -> Result<(), CaseFault> {
        let told = step_of(alloc, self, words)?;
        self.told = told;
        Ok(())
    }

    fn fact(&self, alloc: Global, name: &str) -> Result<Option<String>, CaseFault> {
        fact_of(alloc, self, name)
    }
}
