//! The program `shell_cases`: case files of `shell_top`, runs of scripts over a net and a clock in memory.
//!
//! `shell_cases FILE..` runs the files as `case_files` says. Its steps are those of [`steps`], and their facts those of
//! [`facts`].
#![tactic(auto)]

mod ahead;
mod events;
mod facts;
mod known;
mod quoted;
mod runs;
mod state;
mod steps;

use ahead::runs_of_files;
use case_files::run_files;
use state::State;
use std::io;
use std::process::ExitCode;

fn main(rt: HostRuntime) -> io::Result<ExitCode> {
    let runs = runs_of_files(&rt)?;
    run_files(&rt, &mut State::opened(rt.alloc(), runs))
}
