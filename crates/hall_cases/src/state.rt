use crate::facts::fact_of;
use crate::steps::step_of;
use case_files::{CaseFault, Subject, Words};
use member_hall::Hall;
use std::alloc::Global;

/// What the steps made.
#[derive(Drop)]
pub struct State {
    /// The hall.
    pub hall: Option<Hall>,
    /// How many events its history had ahead of the last step.
    pub before: usize,
    /// What the last step answered.
    pub told: Told,
}

/// What a step answered.
#[derive(Drop)]
pub enum Told {
    /// A hall was made.
    Made,
    /// There is none: no host, a host twice, or an act of a stranger.
    NoMember,
    /// The host at this place stands before it too.
    Twice(u32),
    /// The act at this place is of a host that is not there.
    Stranger(u64),
    /// A dial gave this stream.
    Stream(u64),
    /// A write took so many bytes of so many.
    Took(usize, usize),
    /// A read gave this, in words.
    Came(String),
    /// A read gave nothing yet.
    NotYet,
    /// A read said that the stream ended.
    End,
    /// A dial, a write or a read failed.
    Failed,
    /// A stream was closed.
    Closed,
}

impl State {
    /// No hall.
    pub fn empty() -> State {
        State {
            hall: None,
            before: 0,
            told: Told::Closed,
        }
    }
}

impl Subject for State {
    fn begin(&mut self, _: Global) -> Result<(), CaseFault> {
        *self = State::empty();
        Ok(())
    }

    fn step(&mut self, alloc: Global, words: &mut Words<'_>) -> Result<(), CaseFault> {
        self.before = match &self.hall {
            Some(hall) => hall.events().len(),
            None => 0,
        };
        self.told = step_of(alloc, self, words)?;
        Ok(())
    }

    fn fact(&self, alloc: Global, name: &str) -> Result<Option<String>, CaseFault> {
        fact_of(alloc, self, name)
    }
}
