//! The test files that specifications publish, and how they are run: what the runner programs of suites share.
//!
//! Such a file is JSON. A runner program has a [`Suite`], which compares what a file says with what the crates do, by a
//! [`Tally`]; [`run_suites`] runs the files that the program's arguments name, and compares all that is otherwise with a list
//! of what is left out: what is otherwise and not listed fails the run, and what is listed and not otherwise does too. [`extended`]
//! reads MongoDB Extended JSON (v2, canonical, and the numbers of the relaxed form) as documents, as far as such files need
//! it, and [`members`] what members of JSON objects are.
//!
//! Calls that allocate take an allocator first.
#![tactic(auto)]

mod decimal;
pub mod extended;
mod fault;
mod left_out;
pub mod members;
mod report;
mod running;
mod suite;
mod tally;
mod wrapped;

pub use fault::Fault;
pub use left_out::{Entry, LeftOut};
pub use report::Report;
pub use running::run_suites;
pub use suite::Suite;
pub use tally::Tally;

/// Want of memory, the error of calls that can fail in no other way.
pub type Memory = std::alloc::AllocError;
