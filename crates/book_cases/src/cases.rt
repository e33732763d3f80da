use crate::{events, pools, sessions};
use case_files::{CaseFault, Subject, Words};
use std::alloc::Global;

/// What a file is about, with what its steps made.
#[derive(Drop)]
pub enum Cases {
    /// No step has said it yet.
    Unnamed,
    /// Events and listeners.
    Events(events::State),
    /// Lines and pools.
    Pools(pools::State),
    /// Sessions and the cluster time.
    Sessions(sessions::State),
}

impl Cases {
    /// The part of this name, ahead of its first step.
    fn named(alloc: Global, name: &str) -> Result<Cases, CaseFault> {
        match name {
            "events" => Ok(Cases::Events(events::State::opened(alloc))),
            "pools" => Ok(Cases::Pools(pools::State::opened(alloc))),
            "sessions" => Ok(Cases::Sessions(sessions::State::opened(alloc))),
            _ => Err(CaseFault::form(alloc, name)),
        }
    }

    /// The name of this part.
    fn name(&self) -> &'static str {
        match self {
            Cases::Unnamed => "nothing",
            Cases::Events(_) => "events",
            Cases::Pools(_) => "pools",
            Cases::Sessions(_) => "sessions",
        }
    }

    /// The first step of a file.
    fn about(alloc: Global, words: &mut Words<'_>) -> Result<Cases, CaseFault> {
        match words.next_as("step")? {
            "about" => Cases::named(alloc, words.next_as("part")?),
            other => Err(CaseFault::word(alloc, other)),
        }
    }

    /// The fact of this name behind a step of the part.
    fn part_fact(&self, alloc: Global, name: &str) -> Result<Option<String>, CaseFault> {
        match self {
            Cases::Unnamed => Ok(None),
            Cases::Events(state) => state.fact(alloc, name),
            Cases::Pools(state) => state.fact(alloc, name),
            Cases::Sessions(state) => state.fact(alloc, name),
        }
    }
}

impl Subject for Cases {
    fn begin(&mut self, _: Global) -> Result<(), CaseFault> {
        *self = Cases::Unnamed;
        Ok(())
    }

    fn step(&mut self, alloc: Global, words: &mut Words<'_>) -> Result<(), CaseFault> {
        match self {
            Cases::Unnamed => {
                *self = Cases::about(alloc, words)?;
                Ok(())
            }
            Cases::Events(state) => state.step(alloc, words),
            Cases::Pools(state) => state.step(alloc, words),
            Cases::Sessions(state) => state.step(alloc, words),
        }
    }

    fn fact(&self, alloc: Global, name: &str) -> Result<Option<String>, CaseFault> {
        if name == "about" {
            return Ok(Some(format!(in alloc; "about {}", self.name())?));
        }
        self.part_fact(alloc, name)
    }
}
