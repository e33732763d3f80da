use crate::{Fault, Memory};
use std::alloc::{AllocError, Global};
use std::fmt::Display;

/// What was compared in a file, what was otherwise, and what is to be told beside it.
#[derive(Drop)]
pub struct Tally {
    held: u64,
    complaints: Vec<String>,
    notes: String,
}

impl Tally {
    /// The tally of a file of which nothing was compared yet.
    pub fn new(alloc: Global) -> Tally {
        Tally {
            held: 0,
            complaints: Vec::new(alloc),
            notes: String::new(alloc),
        }
    }

    /// How many things were as the file says.
    pub fn held(&self) -> u64 {
        self.held
    }

    /// What was otherwise.
    pub fn complaints(&self) -> &[String] {
        self.complaints.as_slice()
    }

    /// What is told beside it, each note behind a semicolon.
    pub fn notes(&self) -> &str {
        self.notes.as_str()
    }

    /// Compares what the file expects of `what` with what was got.
    pub fn compare<T: Display + Drop>(
        &mut self,
        alloc: Global,
        what: T,
        expected: &str,
        got: &str,
    ) -> Result<(), Memory> {
        if expected != got {
            return self.complain(
                alloc,
                format_args!("{what}: expected {expected}, got {got}"),
            );
        }
        self.held = self.held.saturating_add(1);
        Ok(())
    }

    /// Complains of something.
    pub fn complain<T: Display + Drop>(&mut self, alloc: Global, text: T) -> Result<(), Memory> {
        let complaint = format!(in alloc; "{text}")?;
        self.complaints.push(complaint)?;
        Ok(())
    }

    /// Complains of the fault that ended a part of the file, if one did.
    pub fn end(&mut self, alloc: Global, ended: Result<(), Fault>) -> Result<(), Memory> {
        match ended {
            Ok(()) => Ok(()),
            Err(Fault::Told(text)) => self.complain(alloc, text.as_str()),
            Err(Fault::Memory) => Err(AllocError),
        }
    }

    /// Notes something that was left alone or changed in reading the file, where it was so at least once.
    pub fn note(&mut self, count: u64, what: &str) -> Result<(), Memory> {
        if count > 0 {
            write!(&mut self.notes, "; {count} {what}")?;
        }
        Ok(())
    }
}
