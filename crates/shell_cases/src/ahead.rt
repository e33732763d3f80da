//! The runs of all case files that are named, made ahead of their steps: a run may have threads, and a step of [`case_files`], whose
//! trait knows of none, may not.
use crate::known::Known;
use crate::runs::{Run, ran};
use crate::steps::{RUN, name_bytes};
use case_files::{CaseFault, Words};
use std::alloc::Global;
use std::collections::VecDeque;
use std::io::ErrorKind;
use std::rt::{Env, Files};
use std::sync::Wait;
use std::thread::Threads;
use std::{env, fs, io};

/// What the runs came to, in the order of their steps.
pub type Runs = VecDeque<Result<Run, CaseFault>>;

/// Makes the runs of the files that the program's arguments name.
pub fn runs_of_files<R: Env + Files + AllocGlobal + Threads + Wait + Sync>(
    rt: &R,
) -> io::Result<Runs> {
    let mut runs = VecDeque::new(rt.alloc());
    for file in env::args(rt)?.skip(1) {
        let text = fs::read_to_string(rt, file.as_str())?;
        push_runs(rt, rt.alloc(), text.as_str(), &mut runs)?;
    }
    Ok(runs)
}

/// Makes the runs of a file. Steps that are at fault are left to the pass that reports.
fn push_runs<R: Threads + Wait + Sync>(
    rt: &R,
    alloc: Global,
    text: &str,
    runs: &mut Runs,
) -> io::Result<()> {
    let mut known = Known::new(alloc);
    for line in text.lines() {
        if !is_step(line) {
            continue;
        }
        if let Some(run) = run_of(rt, alloc, &mut known, line) {
            let Ok(()) = runs.push_back(run) else {
                return Err(io::Error::from(ErrorKind::OutOfMemory));
            };
        }
    }
    Ok(())
}

/// Whether a line is a step, as a case file has it: no comment, no expected line, and no blanks around it.
fn is_step(line: &str) -> bool {
    !line.is_empty() && !line.starts_with('#') && line.trim().len() == line.len()
}

/// What the step of a line came to, where it is a run.
fn run_of<R: Threads + Wait + Sync>(
    rt: &R,
    alloc: Global,
    known: &mut Known,
    line: &str,
) -> Option<Result<Run, CaseFault>> {
    let mut words = match Words::of_line(alloc, line) {
        Ok(words) => words,
        Err(_) => return None,
    };
    let verb = words.next()?;
    if verb == RUN {
        return Some(whole(rt, alloc, known, &mut words));
    }
    let _ = name_bytes(alloc, known, verb, &mut words);
    None
}

/// A run that takes all of its words.
fn whole<R: Threads + Wait + Sync>(
    rt: &R,
    alloc: Global,
    known: &Known,
    words: &mut Words<'_>,
) -> Result<Run, CaseFault> {
    let run = ran(rt, alloc, known, words)?;
    words.end(alloc)?;
    Ok(run)
}
