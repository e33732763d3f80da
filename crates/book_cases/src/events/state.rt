use crate::events::facts::fact_of;
use crate::events::recorder::Recorder;
use crate::events::steps::step_of;
use bson_doc::Rows;
use case_files::{CaseFault, Subject, Words};
use drv_events::HooksOf;
use host_name::Host;
use std::alloc::Global;

/// What the steps made.
#[derive(Drop)]
pub struct State {
    /// The listeners.
    pub hooks: HooksOf<Recorder>,
    /// The names of hosts, of which there are none: these listeners do not look at them.
    pub names: Rows<Host>,
}

impl State {
    /// No listener.
    pub fn opened(alloc: Global) -> State {
        State {
            hooks: HooksOf::new(alloc),
            names: Rows::new(alloc),
        }
    }
}

impl Subject for State {
    fn begin(&mut self, alloc: Global) -> Result<(), CaseFault> {
        *self = State::opened(alloc);
        Ok(())
    }

    fn step(&mut self, alloc: Global, words: &mut Words<'_>) -> Result<(), CaseFault> {
        step_of(alloc, self, words)
    }

    fn fact(&self, alloc: Global, name: &str) -> Result<Option<String>, CaseFault> {
        fact_of(alloc, self, name)
    }
}
