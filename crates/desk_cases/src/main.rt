//! The program `desk_cases`: case files of `desk_core`, a client that checks servers and runs commands over a net in memory.
//!
//! `desk_cases FILE..` runs the files as `case_files` says. Its steps are those of [`steps`], and their facts those of
//! [`facts`]. The entries that a step wrote are named one by one, in order: where one was not named, the next step is a complaint,
//! and so is the end of the file.
#![tactic(auto)]

mod calls;
mod checkouts;
mod commanding;
mod ends;
mod entries;
mod facts;
mod hosts;
mod kinds;
mod log;
mod looks;
mod messages;
mod net;
mod peers;
mod requests;
mod scripts;
mod state;
mod steps;
mod stream;
mod telling;
mod topologies;

use case_files::run_files;
use peers::Peers;
use state::State;
use std::cell::RefCell;
use std::io;
use std::process::ExitCode;

fn main(rt: HostRuntime) -> io::Result<ExitCode> {
    let peers = RefCell::new(Peers::new(rt.alloc()));
    let mut state = State::opened(&peers, rt.alloc());
    run(&rt, &mut state)
}

/// Runs the files, and asks that the last of them names all entries.
fn run(rt: &HostRuntime, state: &mut State<'_>) -> io::Result<ExitCode> {
    let status = run_files(rt, state)?;
    if state.has_untold() {
        println!(rt; "the last file ends with entries that no line names")?;
        return Ok(ExitCode::from(1));
    }
    Ok(status)
}
