use crate::Memory;
use std::alloc::Global;

/// What is left out of a file.
#[derive(Clone, Copy, Debug, PartialEq, Eq)]
pub struct Entry<'a> {
    /// The file's name.
    pub file: &'a str,
    /// What is otherwise in it, exactly as it is told.
    pub complaint: &'a str,
    /// Why.
    pub reason: &'a str,
}

/// What is left out of the files of a suite.
#[derive(Drop)]
pub struct LeftOut<'a> {
    entries: Vec<Entry<'a>>,
    bad_line: Option<u64>,
}

impl<'a> LeftOut<'a> {
    /// Reads a list, of which each line is `SUITE FILE | COMPLAINT | REASON`; empty lines, and lines that begin with `#`,
    /// say nothing. What it says of other suites is left alone.
    pub fn read(alloc: Global, suite: &str, text: &'a str) -> Result<LeftOut<'a>, Memory> {
        let mut entries = Vec::new(alloc);
        let mut bad_line = None;
        let mut number = 0u64;
        for line in text.lines() {
            number = number.saturating_add(1);
            if line.is_empty() || line.starts_with('#') {
                continue;
            }
            match entry_of(line) {
                Some((found, entry)) => {
                    if found == suite {
                        entries.push(entry)?;
                    }
                }
                None => {
                    bad_line = bad_line.or(Some(number));
                }
            }
        }
        Ok(LeftOut { entries, bad_line })
    }

    /// The number of the first line that is not in form, from 1.
    pub fn bad_line(&self) -> Option<u64> {
        self.bad_line
    }

    /// What is left out, in the list's order.
    pub fn entries(&self) -> &[Entry<'a>] {
        self.entries.as_slice()
    }

    /// Why a complaint about a file is left out; none where it is not.
    pub fn reason(&self, file: &str, complaint: &str) -> Option<&'a str> {
        let found = self
            .entries
            .iter()
            .find(|entry| entry.file == file && entry.complaint == complaint)?;
        Some(found.reason)
    }
}

/// The suite that a line is about, and what it says.
fn entry_of(line: &str) -> Option<(&str, Entry<'_>)> {
    let (head, rest) = line.split_once(" | ")?;
    let (complaint, reason) = rest.split_once(" | ")?;
    let (suite, file) = head.split_once(' ')?;
    if suite.is_empty() || file.is_empty() || complaint.is_empty() || reason.is_empty() {
        return None;
    }
    Some((
        suite,
        Entry {
            file,
            complaint,
            reason,
        },
    ))
}
