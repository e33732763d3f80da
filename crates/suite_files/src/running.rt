use crate::{Fault, LeftOut, Memory, Report, Suite, Tally};
use serde_json::Value;
use std::alloc::Global;
use std::process::ExitCode;
use std::rt::{Env, Files};
use std::{env, fs, io};

/// What stands between the suites among the arguments.
const BETWEEN: &str = "--";

/// Runs suites: the arguments are the list of what is left out, the name of a suite and the names of its files, and behind a
/// word `--` those of a further one. It prints what came of each file, and a line of counts for each suite.
///
/// The status is 0 where of each file all is as it says but for exactly what the list has, and each suite has a file; else 1,
/// and 2 where a word is missing. A list that cannot be read is an error.
pub fn run_suites<R, S>(rt: &R, suites: &S) -> io::Result<ExitCode>
where
    R: Files + Env + Print + Eprint + AllocGlobal + Clone + Drop,
    S: Suite,
{
    let mut words = Vec::new(rt.alloc());
    for word in env::args(rt)?.skip(1) {
        words.push(word)?;
    }
    let Some((list, words)) = words.as_slice().split_first() else {
        eprintln!(rt; "name the list of what is left out, and suites with their files")?;
        return Ok(ExitCode::from(2));
    };
    let list = fs::read_to_string(rt, list.as_str())?;
    let mut clean = true;
    for group in words.split(|word| word.as_str() == BETWEEN) {
        let Some((name, files)) = group.split_first() else {
            eprintln!(rt; "name a suite, and its files")?;
            return Ok(ExitCode::from(2));
        };
        let report = run_suite(rt, suites, name.as_str(), files, list.as_str())?;
        rt.print(report.text(rt.alloc(), name.as_str())?)?;
        clean = clean && report.is_clean();
    }
    if clean {
        Ok(ExitCode::SUCCESS)
    } else {
        Ok(ExitCode::from(1))
    }
}

/// Runs the files of a suite.
fn run_suite<R, S>(
    rt: &R,
    suites: &S,
    name: &str,
    files: &[String],
    list: &str,
) -> Result<Report, Memory>
where
    R: Files + AllocGlobal + Clone + Drop,
    S: Suite,
{
    let left_out = LeftOut::read(rt.alloc(), name, list)?;
    let mut report = Report::new(rt.alloc());
    for file in files {
        let tally = run_file(rt, suites, name, file.as_str())?;
        report.take(rt.alloc(), file.as_str(), &left_out, &tally)?;
    }
    check_list(rt.alloc(), &left_out, files, &mut report)?;
    Ok(report)
}

/// Runs a file. One in which nothing was compared and nothing is otherwise is complained of.
fn run_file<R, S>(rt: &R, suites: &S, name: &str, file: &str) -> Result<Tally, Memory>
where
    R: Files + AllocGlobal + Clone + Drop,
    S: Suite,
{
    let alloc = rt.alloc();
    let mut tally = Tally::new(alloc);
    match fs::read_to_string(rt, file) {
        Ok(text) => {
            let ended = run_text(alloc, suites, name, text.as_str(), &mut tally);
            tally.end(alloc, ended)?;
        }
        Err(_) => tally.complain(alloc, "cannot be read")?,
    }
    if tally.held() == 0 && tally.complaints().is_empty() {
        tally.complain(alloc, "nothing to compare")?;
    }
    Ok(tally)
}

/// Runs the text of a file.
fn run_text<S: Suite>(
    alloc: Global,
    suites: &S,
    name: &str,
    text: &str,
    tally: &mut Tally,
) -> Result<(), Fault> {
    match Value::from_str(alloc, text) {
        Ok(file) => suites.run(alloc, name, &file, tally),
        Err(e) if e.is_memory() => Err(Fault::Memory),
        Err(_) => Err(Fault::told(alloc, "is no JSON")),
    }
}

/// Complains of a line of the list that is not in form, and of a listed file that is not among the files.
fn check_list(
    alloc: Global,
    left_out: &LeftOut<'_>,
    files: &[String],
    report: &mut Report,
) -> Result<(), Memory> {
    if let Some(number) = left_out.bad_line() {
        let text = format!(in alloc; "line {number} is not in form")?;
        report.complain("the list of what is left out", text.as_str())?;
    }
    for entry in left_out.entries() {
        if !files.iter().any(|file| file.as_str() == entry.file) {
            report.complain(entry.file, "listed as left out, and not among the files")?;
        }
    }
    Ok(())
}
