//! The program `book_cases`: case files about the books of pools and their lines, of sessions, and of events.
//!
//! `book_cases FILE..` runs the files as `case_files` says. A file's first step, `about PART`, says what the file is about, and
//! its fact `about` is the same line. Behind it stand the steps of that part, as its module says:
//!
//! - [`events`]: the events of a client and who hears them, `drv_events`;
//! - [`pools`]: the lines in which check-outs wait and the pools of connections, `wait_line` and `pool_book`;
//! - [`sessions`]: a client's sessions and the cluster time, `sess_book` and `time_gossip`.
#![tactic(auto)]

mod cases;
mod events;
mod pools;
mod sessions;

use case_files::run_files;
use cases::Cases;
use std::io;
use std::process::ExitCode;

fn main(rt: HostRuntime) -> io::Result<ExitCode> {
    run_files(&rt, &mut Cases::Unnamed)
}
