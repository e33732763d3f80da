use crate::scripts::facts::fact_of;
use crate::scripts::steps::step_of;
use bson_doc::Rows;
use case_files::{CaseFault, Subject, Words};
use cmd_build::Command;
use script_text::ScriptFault;
use std::alloc::Global;

/// What the last step read.
#[derive(Drop)]
pub enum State {
    /// No step was taken yet.
    Nothing,
    /// A script's commands.
    Commands(Rows<Command>),
    /// A script's fault.
    Fault(ScriptFault),
}

impl Subject for State {
    fn begin(&mut self, _alloc: Global) -> Result<(), CaseFault> {
        *self = State::Nothing;
        Ok(())
    }

    fn step(&mut self, alloc: Global, words: &mut Words<'_>) -> Result<(), CaseFault> {
        *self = step_of(alloc, words)?;
        Ok(())
    }

    fn fact(&self, alloc: Global, name: &str) -> Result<Option<String>, CaseFault> {
        fact_of(alloc, self, name)
    }
}
