//! The program `pool_suite`: the tests of Connection Monitoring and Pooling (CMAP), over `pool_book`.
//!
//! `pool_suite LIST SUITE FILE.. [-- SUITE FILE..]` runs the files as `suite_files` says. The operations of a file are
//! calls of one pool's book, in order, and what the calls answer are its events. What the tests leave to a real pool is
//! done so:
//!
//! - These tests know no paused pool: the pool is made ready when it is made, and again when it was cleared.
//! - Whatever is dialled is established at once. Behind each operation, and whenever time passes, the perished connections are
//!   swept and each thread that waits asks again, in the order in which they entered.
//! - The clock is a number. It moves by an operation `wait`, and by one that waits for what is not there yet: to the moment at
//!   which the thread that entered first has waited long enough.
//!
//! The events, without those of the kinds that the file ignores, must be those that it expects: as many, each of the kind, and
//! with each member that it has; 42 stands for any value. Of options, and of messages of errors, there is no call.
#![tactic(auto)]

mod event;
mod expecting;
mod operations;
mod options;
mod player;
mod pools;

use pools::Pools;
use std::io;
use std::process::ExitCode;
use suite_files::run_suites;

fn main(rt: HostRuntime) -> io::Result<ExitCode> {
    run_suites(&rt, &Pools)
}
