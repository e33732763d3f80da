//! The program `topo_suite`: the tests of Server Discovery and Monitoring (SDAM) and of the mean round trip time (Server
//! Selection), over `conn_uri`, `hello_reply`, `cmd_outcome`, `topo_book` with `topo_rules`, `pool_book` and `rtt_mean`.
//!
//! `topo_suite LIST SUITE FILE.. [-- SUITE FILE..]` runs the files as `suite_files` says, of these suites:
//!
//! - `server-discovery-and-monitoring`: the settings of a file's `uri` open a topology. Of each phase the hello replies, read
//!   by `describe`, and the errors of applications are offered to the topology's book, with the generation of their server's
//!   pool; then each fact of the outcome is compared. A reply without elements is a check that broke.
//! - `rtt`: one step of the mean, in microseconds.
//!
//! A greatest wire version of 6 to 12, which the tests' drivers accept and this profile does not, is read as 13, and counted.
#![tactic(auto)]

mod client;
mod errors;
mod facts;
mod lifting;
mod outcomes;
mod phases;
mod rtt;
mod servers;
mod suites;

use std::io;
use std::process::ExitCode;
use suite_files::run_suites;
use suites::Suites;

fn main(rt: HostRuntime) -> io::Result<ExitCode> {
    run_suites(&rt, &Suites)
}
