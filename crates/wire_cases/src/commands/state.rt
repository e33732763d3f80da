use crate::commands::asked::Asked;
use crate::commands::facts::fact_of;
use crate::commands::steps::step_of;
use bson_doc::Document;
use case_files::{CaseFault, Subject, Words};
use std::alloc::Global;

/// What the last step made.
#[derive(Drop)]
pub enum State {
    /// No step was taken yet.
    Nothing,
    /// A command, with what it is built with.
    Asked(Asked),
    /// A document that is sent without a command.
    Sent(Document),
    /// A reply.
    Reply(Document),
}

impl Subject for State {
    fn begin(&mut self, _alloc: Global) -> Result<(), CaseFault> {
        *self = State::Nothing;
        Ok(())
    }

    fn step(&mut self, alloc: Global, words: &mut Words<'_>) -> Result<(), CaseFault> {
        *self = step_of(alloc, words)?;
        Ok(())
    }

    fn fact(&self, alloc: Global, name: &str) -> Result<Option<String>, CaseFault> {
        fact_of(alloc, self, name)
    }
}
