use crate::line::{Line, line_of};
use crate::{CaseFault, Memory, Report, Subject, Words};
use std::alloc::Global;

/// Where in a file its reader stands.
#[derive(Clone, Copy, PartialEq, Eq)]
enum Place {
    /// Ahead of all steps.
    Front,
    /// Behind a step, of this line, that was taken, and has no expected line yet.
    Bare(u64),
    /// Behind an expected line of a step that was taken.
    Told,
    /// Behind a step that was not taken.
    Failed,
}

/// Runs the text of a file, and reports what came of it.
pub fn run_text<'a, S: Subject>(
    alloc: Global,
    subject: &mut S,
    file: &'a str,
    text: &str,
) -> Result<Report<'a>, Memory> {
    let mut report = Report::new(alloc, file);
    let mut place = Place::Front;
    let mut number = 0u64;
    if let Err(fault) = subject.begin(alloc) {
        report.complain_of(alloc, number, &fault)?;
        return Ok(report);
    }
    for line in text.lines() {
        number = number.saturating_add(1);
        place = run_line(alloc, subject, &mut report, place, number, line_of(line))?;
    }
    end_step(&mut report, place)?;
    if place == Place::Front {
        report.complain(number, "no step in this file")?;
    }
    Ok(report)
}

/// Takes a line, and answers where the reader stands behind it.
fn run_line<S: Subject>(
    alloc: Global,
    subject: &mut S,
    report: &mut Report<'_>,
    place: Place,
    number: u64,
    line: Line<'_>,
) -> Result<Place, Memory> {
    match line {
        Line::Nothing => Ok(place),
        Line::Misplaced => {
            report.complain(number, "blanks out of place")?;
            Ok(place)
        }
        Line::Step(text) => {
            end_step(report, place)?;
            report.count_step();
            match take_step(alloc, subject, text) {
                Ok(()) => Ok(Place::Bare(number)),
                Err(fault) => {
                    report.complain_of(alloc, number, &fault)?;
                    Ok(Place::Failed)
                }
            }
        }
        Line::Expected(text) => match place {
            Place::Front => {
                report.complain(number, "expected behind no step")?;
                Ok(place)
            }
            Place::Failed => Ok(place),
            Place::Bare(_) | Place::Told => {
                compare(alloc, subject, report, number, text)?;
                Ok(Place::Told)
            }
        },
    }
}

/// Complains of a step with nothing expected behind it.
fn end_step(report: &mut Report<'_>, place: Place) -> Result<(), Memory> {
    match place {
        Place::Bare(number) => report.complain(number, "nothing expected behind the step"),
        _ => Ok(()),
    }
}

/// Takes the step of a line.
fn take_step<S: Subject>(alloc: Global, subject: &mut S, line: &str) -> Result<(), CaseFault> {
    let mut words = Words::of_line(alloc, line)?;
    subject.step(alloc, &mut words)?;
    words.end(alloc)
}

/// Compares an expected line with the fact that its first word names.
fn compare<S: Subject>(
    alloc: Global,
    subject: &S,
    report: &mut Report<'_>,
    number: u64,
    expected: &str,
) -> Result<(), Memory> {
    let name = match expected.split_once(' ') {
        Some((name, _)) => name,
        None => expected,
    };
    match subject.fact(alloc, name) {
        Ok(Some(told)) => report.compare(alloc, number, expected, told.as_str()),
        Ok(None) => {
            let text = format!(in alloc; "the step has no fact `{name}`")?;
            report.complain(number, text.as_str())
        }
        Err(fault) => report.complain_of(alloc, number, &fault),
    }
}
