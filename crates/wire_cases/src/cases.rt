use crate::{bytes, commands, scripts, uris};
use case_files::{CaseFault, Subject, Words};
use std::alloc::Global;

/// What a file is about, with what its steps made.
#[derive(Drop)]
pub enum Cases {
    /// No step has said it yet.
    Unnamed,
    /// Documents and messages.
    Bytes(bytes::State),
    /// Requests and replies.
    Commands(commands::State),
    /// Scripts.
    Scripts(scripts::State),
    /// Connection strings.
    Uris(uris::State),
}

impl Cases {
    /// The part of this name, ahead of its first step.
    fn named(alloc: Global, name: &str) -> Result<Cases, CaseFault> {
        match name {
            "bytes" => Ok(Cases::Bytes(bytes::State::Nothing)),
            "commands" => Ok(Cases::Commands(commands::State::Nothing)),
            "scripts" => Ok(Cases::Scripts(scripts::State::Nothing)),
            "uris" => Ok(Cases::Uris(uris::State::opened())),
            _ => Err(CaseFault::form(alloc, name)),
        }
    }

    /// The name of this part.
    fn name(&self) -> &'static str {
        match self {
            Cases::Unnamed => "nothing",
            Cases::Bytes(_) => "bytes",
            Cases::Commands(_) => "commands",
            Cases::Scripts(_) => "scripts",
            Cases::Uris(_) => "uris",
        }
    }

    /// The first step of a file.
    fn about(alloc: Global, words: &mut Words<'_>) -> Result<Cases, CaseFault> {
        match words.next_as("step")? {
            "about" => Cases::named(alloc, words.next_as("part")?),
            other => Err(CaseFault::word(alloc, other)),
        }
    }

    /// The fact of this name behind a step of the part.
    fn part_fact(&self, alloc: Global, name: &str) -> Result<Option<String>, CaseFault> {
        match self {
            Cases::Unnamed => Ok(None),
            Cases::Bytes(state) => state.fact(alloc, name),
            Cases::Commands(state) => state.fact(alloc, name),
            Cases::Scripts(state) => state.fact(alloc, name),
            Cases::Uris(state) => state.fact(alloc, name),
        }
    }
}

impl Subject for Cases {
    fn begin(&mut self, _: Global) -> Result<(), CaseFault> {
        *self = Cases::Unnamed;
        Ok(())
    }

    fn step(&mut self, alloc: Global, words: &mut Words<'_>) -> Result<(), CaseFault> {
        match self {
            Cases::Unnamed => {
                *self = Cases::about(alloc, words)?;
                Ok(())
            }
            Cases::Bytes(state) => state.step(alloc, words),
            Cases::Commands(state) => state.step(alloc, words),
            Cases::Scripts(state) => state.step(alloc, words),
            Cases::Uris(state) => state.step(alloc, words),
        }
    }

    fn fact(&self, alloc: Global, name: &str) -> Result<Option<String>, CaseFault> {
        if name == "about" {
            return Ok(Some(format!(in alloc; "about {}", self.name())?));
        }
        self.part_fact(alloc, name)
    }
}
