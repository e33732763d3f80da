use crate::{CaseFault, Memory};
use std::alloc::{AllocError, Global};

/// What came of a file.
#[derive(Drop)]
pub struct Report<'a> {
    /// The file's name.
    file: &'a str,
    /// The complaints, a line each.
    complaints: String,
    /// How many complaints there are.
    complained: u64,
    /// How many steps there are.
    steps: u64,
    /// How many expected lines were compared.
    compared: u64,
}

impl<'a> Report<'a> {
    /// The report of a file of which nothing was read yet.
    pub fn new(alloc: Global, file: &'a str) -> Report<'a> {
        Report {
            file,
            complaints: String::new(alloc),
            complained: 0,
            steps: 0,
            compared: 0,
        }
    }

    /// Whether there is no complaint.
    pub fn is_clean(&self) -> bool {
        self.complained == 0
    }

    /// The complaints, and the line of counts.
    pub fn text(&self, alloc: Global) -> Result<String, Memory> {
        format!(in alloc;
            "{}{}: {} steps, {} lines compared, {} complaints\n",
            self.complaints.as_str(),
            self.file,
            self.steps,
            self.compared,
            self.complained
        )
    }

    /// Counts a step.
    pub(crate) fn count_step(&mut self) {
        self.steps = self.steps.saturating_add(1);
    }

    /// Complains of a line, by its number from 1 on.
    pub(crate) fn complain(&mut self, line: u64, of: &str) -> Result<(), Memory> {
        let file = self.file;
        writeln!(&mut self.complaints, "{file}:{line}: {of}")?;
        self.complained = self.complained.saturating_add(1);
        Ok(())
    }

    /// Complains of a step that was not taken, unless memory was wanting.
    pub(crate) fn complain_of(
        &mut self,
        alloc: Global,
        line: u64,
        fault: &CaseFault,
    ) -> Result<(), Memory> {
        if let CaseFault::Memory = fault {
            return Err(AllocError);
        }
        let text = format!(in alloc; "{fault}")?;
        self.complain(line, text.as_str())
    }

    /// Compares an expected line with what was told.
    pub(crate) fn compare(
        &mut self,
        alloc: Global,
        line: u64,
        expected: &str,
        told: &str,
    ) -> Result<(), Memory> {
        self.compared = self.compared.saturating_add(1);
        if expected == told {
            return Ok(());
        }
        let text = format!(in alloc; "expected `{expected}`, got `{told}`")?;
        self.complain(line, text.as_str())
    }
}
