use crate::{Report, Subject, run_text};
use std::alloc::Global;
use std::process::ExitCode;
use std::rt::{Env, Files};
use std::{env, fs, io};

/// What a name of a case file ends with.
const ENDING: &str = ".cases";

/// Runs the case files that the program's arguments name, and prints what came of each. The status is 0 where there is no
/// complaint, 1 where there is one, and 2 where no file is named; a file that cannot be read is an error.
pub fn run_files<R, S>(rt: &R, subject: &mut S) -> io::Result<ExitCode>
where
    R: Files + Env + Print + Eprint + AllocGlobal + Clone + Drop,
    S: Subject,
{
    let files = named(rt)?;
    if files.is_empty() {
        eprintln!(rt; "name the case files")?;
        return Ok(ExitCode::from(2));
    }
    let mut clean = true;
    for file in files.iter() {
        let text = fs::read_to_string(rt, file.as_str())?;
        let report = run_text(rt.alloc(), subject, file.as_str(), text.as_str())?;
        clean = clean && report.is_clean();
        print(rt, &report)?;
    }
    let all = all_named(rt, &files)?;
    if clean && all {
        Ok(ExitCode::SUCCESS)
    } else {
        Ok(ExitCode::from(1))
    }
}

/// The program's arguments.
fn named<R: Env + AllocGlobal>(rt: &R) -> io::Result<Vec<String>> {
    let mut files = Vec::new(rt.alloc());
    for word in env::args(rt)?.skip(1) {
        files.push(word)?;
    }
    Ok(files)
}

fn print<R: Print + AllocGlobal>(rt: &R, report: &Report<'_>) -> io::Result<()> {
    let text = report.text(rt.alloc())?;
    rt.print(text)
}

/// Whether each case file in this folder is named, with a complaint for each that is not.
fn all_named<R: Files + Print + AllocGlobal + Clone + Drop>(
    rt: &R,
    files: &Vec<String>,
) -> io::Result<bool> {
    let mut all = true;
    for entry in fs::read_dir(rt, ".")? {
        let entry = entry?;
        let found = entry.file_name();
        if found.ends_with(ENDING) && !is_among(files, found) {
            println!(rt; "{found}: not named")?;
            all = false;
        }
    }
    Ok(all)
}

fn is_among(files: &Vec<String>, found: &str) -> bool {
    files.iter().any(|file| file.as_str() == found)
}
