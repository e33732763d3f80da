//! The program `rule_cases`: case files about the rules of topologies, selections, attempts and checks.
//!
//! `rule_cases FILE..` runs the files as `case_files` says. A file's first step, `about PART`, says what the file is about, and
//! its fact `about` is the same line. Behind it stand the steps of that part, as its module says:
//!
//! - [`attempts`]: one command's attempts and one server's checks, `write_retry` and `watch_step`;
//! - [`selections`]: the selections of servers, `read_pref` and `server_pick`;
//! - [`topologies`]: hello replies, topologies and the books of accepted events, `hello_reply`, `topo_rules` and `topo_book`.
#![tactic(auto)]

mod attempts;
mod cases;
mod selections;
mod servers;
mod topologies;

use case_files::run_files;
use cases::Cases;
use std::io;
use std::process::ExitCode;

fn main(rt: HostRuntime) -> io::Result<ExitCode> {
    run_files(&rt, &mut Cases::Unnamed)
}
