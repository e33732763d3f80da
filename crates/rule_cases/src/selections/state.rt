use crate::selections::facts::fact_of;
use crate::selections::loads::ListedLoads;
use crate::selections::steps::take_step;
use crate::servers::placeholder;
use bson_doc::Rows;
use case_files::{CaseFault, Subject, Words};
use host_name::Host;
use server_pick::Picked;
use std::alloc::Global;
use topo_rules::Topology;

/// What the steps made.
#[derive(Drop)]
pub struct State {
    /// The servers that are selected from.
    pub topology: Topology,
    /// What they have in flight.
    pub loads: ListedLoads,
    /// The hosts that the last picker kept.
    pub kept: Rows<Host>,
    /// How often the last picker was asked.
    pub asked: u32,
    /// What the last selection came to; none where the last step was no selection.
    pub picked: Option<Picked>,
}

impl State {
    /// Nothing was selected, from a topology of one host.
    pub fn opened(alloc: Global) -> Result<State, CaseFault> {
        Ok(State {
            topology: placeholder(alloc)?,
            loads: ListedLoads::new(alloc),
            kept: Rows::new(alloc),
            asked: 0,
            picked: None,
        })
    }
}

impl Subject for State {
    fn begin(&mut self, alloc: Global) -> Result<(), CaseFault> {
        *self = State::opened(alloc)?;
        Ok(())
    }

    fn step(&mut self, alloc: Global, words: &mut Words<'_>) -> Result<(), CaseFault> {
        take_step(alloc, self, words)
    }

    fn fact(&self, alloc: Global, name: &str) -> Result<Option<String>, CaseFault> {
        fact_of(alloc, self, name)
    }
}
