use crate::{LeftOut, Memory, Tally};
use std::alloc::Global;

/// What came of the files of a suite so far: a line each with lines of what is otherwise, and how many there are of each kind.
#[derive(Drop)]
pub struct Report {
    lines: String,
    files: u64,
    held: u64,
    passed: u64,
    left_out: u64,
    unexplained: u64,
}

impl Report {
    /// The report of a suite of which no file was run yet.
    pub fn new(alloc: Global) -> Report {
        Report {
            lines: String::new(alloc),
            files: 0,
            held: 0,
            passed: 0,
            left_out: 0,
            unexplained: 0,
        }
    }

    /// Whether all is explained, and there was a file at all.
    pub fn is_clean(&self) -> bool {
        self.unexplained == 0 && self.files > 0
    }

    /// The lines, and a line of counts.
    pub fn text(&self, alloc: Global, suite: &str) -> Result<String, Memory> {
        format!(in alloc;
            "{}{suite}: {} files, {} checks hold: {} pass, {} left out in part or whole, {} unexplained\n",
            self.lines.as_str(),
            self.files,
            self.held,
            self.passed,
            self.left_out,
            self.unexplained
        )
    }

    /// Notes what came of a file.
    pub fn take(
        &mut self,
        alloc: Global,
        file: &str,
        left_out: &LeftOut<'_>,
        tally: &Tally,
    ) -> Result<(), Memory> {
        self.files = self.files.saturating_add(1);
        self.held = self.held.saturating_add(tally.held());
        let mut details = String::new(alloc);
        let bad = faults(&mut details, file, left_out, tally)?;
        let said = if bad > 0 {
            self.unexplained = self.unexplained.saturating_add(bad);
            "FAILED  "
        } else if tally.complaints().is_empty() {
            self.passed = self.passed.saturating_add(1);
            "passes  "
        } else {
            self.left_out = self.left_out.saturating_add(1);
            "left out"
        };
        let held = tally.held();
        let notes = tally.notes();
        let details = details.as_str();
        write!(
            &mut self.lines,
            "{said} {file}: {held} checks hold{notes}\n{details}"
        )
    }

    /// Complains of what is no file's matter.
    pub fn complain(&mut self, of: &str, complaint: &str) -> Result<(), Memory> {
        self.unexplained = self.unexplained.saturating_add(1);
        writeln!(&mut self.lines, "FAILED   {of}: {complaint}")
    }
}

/// Writes what is otherwise in a file, a line each, and what is listed and is not so; answers how much of it is unexplained.
fn faults(
    details: &mut String,
    file: &str,
    left_out: &LeftOut<'_>,
    tally: &Tally,
) -> Result<u64, Memory> {
    let mut bad = 0u64;
    for complaint in tally.complaints() {
        let complaint = complaint.as_str();
        match left_out.reason(file, complaint) {
            Some(reason) => writeln!(details, "    {complaint}\n      {reason}")?,
            None => {
                writeln!(details, "    UNEXPLAINED {complaint}")?;
                bad = bad.saturating_add(1);
            }
        }
    }
    for entry in left_out.entries() {
        if entry.file == file && !is_told(tally, entry.complaint) {
            let complaint = entry.complaint;
            writeln!(details, "    LISTED, AND NOT SO {complaint}")?;
            bad = bad.saturating_add(1);
        }
    }
    Ok(bad)
}

/// Whether the complaint is among those that were told.
fn is_told(tally: &Tally, complaint: &str) -> bool {
    tally
        .complaints()
        .iter()
        .any(|told| told.as_str() == complaint)
}
