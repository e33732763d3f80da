use crate::{attempts, selections, topologies};
use case_files::{CaseFault, Subject, Words};
use std::alloc::Global;

/// What a file is about, with what its steps made.
#[derive(Drop)]
pub enum Cases {
    /// No step has said it yet.
    Unnamed,
    /// One command's attempts and one server's checks.
    Attempts(attempts::State),
    /// Selections of servers.
    Selections(selections::State),
    /// Hello replies and topologies.
    Topologies(topologies::State),
}

impl Cases {
    /// The part of this name, ahead of its first step.
    fn named(alloc: Global, name: &str) -> Result<Cases, CaseFault> {
        match name {
            "attempts" => Ok(Cases::Attempts(attempts::State::opened())),
            "selections" => Ok(Cases::Selections(selections::State::opened(alloc)?)),
            "topologies" => Ok(Cases::Topologies(topologies::State::opened(alloc)?)),
            _ => Err(CaseFault::form(alloc, name)),
        }
    }

    /// The name of this part.
    fn name(&self) -> &'static str {
        match self {
            Cases::Unnamed => "nothing",
            Cases::Attempts(_) => "attempts",
            Cases::Selections(_) => "selections",
            Cases::Topologies(_) => "topologies",
        }
    }

    /// The first step of a file.
    fn about(alloc: Global, words: &mut Words<'_>) -> Result<Cases, CaseFault> {
        match words.next_as("step")? {
            "about" => Cases::named(alloc, words.next_as("part")?),
            other => Err(CaseFault::word(alloc, other)),
        }
    }

    /// The fact of this name behind a step of the part.
    fn part_fact(&self, alloc: Global, name: &str) -> Result<Option<String>, CaseFault> {
        match self {
            Cases::Unnamed => Ok(None),
            Cases::Attempts(state) => state.fact(alloc, name),
            Cases::Selections(state) => state.fact(alloc, name),
            Cases::Topologies(state) => state.fact(alloc, name),
        }
    }
}

impl Subject for Cases {
    fn begin(&mut self, _: Global) -> Result<(), CaseFault> {
        *self = Cases::Unnamed;
        Ok(())
    }

    fn step(&mut self, alloc: Global, words: &mut Words<'_>) -> Result<(), CaseFault> {
        match self {
            Cases::Unnamed => {
                *self = Cases::about(alloc, words)?;
                Ok(())
            }
            Cases::Attempts(state) => state.step(alloc, words),
            Cases::Selections(state) => state.step(alloc, words),
            Cases::Topologies(state) => state.step(alloc, words),
        }
    }

    fn fact(&self, alloc: Global, name: &str) -> Result<Option<String>, CaseFault> {
        if name == "about" {
            return Ok(Some(format!(in alloc; "about {}", self.name())?));
        }
        self.part_fact(alloc, name)
    }
}
