//! Tests of the crates of books, of the events that an application hears, and of case files.
//!
//! There is a file for each crate that is tested, as `of_case_files` for `case_files`: public calls on their happy
//! paths, and what no clause of a contract says. Beside the tests stands a listener for them ([`expects`]). The
//! tests stand apart from the crates that they test, since a crate that has tests is proved once more with them.
#![tactic(auto)]

pub mod expects;
#[cfg(test)]
mod of_case_files;
#[cfg(test)]
mod of_drv_events;
#[cfg(test)]
mod of_pool_book;
#[cfg(test)]
mod of_sess_book;
#[cfg(test)]
mod of_time_gossip;
#[cfg(test)]
mod of_topo_book;
#[cfg(test)]
mod of_wait_line;
#[cfg(test)]
mod of_watch_step;
