//! The program `hall_cases`: case files of `member_hall`, members of a replica set that are played in memory.
//!
//! `hall_cases FILE..` runs the files as `case_files` says. Its steps are those of [`steps`], and their facts those of
//! [`facts`].
#![tactic(auto)]

mod facts;
mod halls;
mod messages;
mod replies;
mod state;
mod steps;

use case_files::run_files;
use state::State;
use std::io;
use std::process::ExitCode;

fn main(rt: HostRuntime) -> io::Result<ExitCode> {
    run_files(&rt, &mut State::empty())
}
