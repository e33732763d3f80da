//! Tests of the crates of rules: the decisions of the standards, the scripts of commands, and the lines of a report.
//!
//! There is a file for each crate that is tested, as `of_cmd_outcome` for `cmd_outcome`: public calls on their happy
//! paths, and what no clause of a contract says. Beside the tests stands a line that they compare ([`first_line`]).
//! The tests stand apart from the crates that they test, since a crate that has tests is proved once more with them.
#![tactic(auto)]

pub mod first_line;
#[cfg(test)]
mod of_cmd_outcome;
#[cfg(test)]
mod of_conn_uri;
#[cfg(test)]
mod of_hello_reply;
#[cfg(test)]
mod of_read_pref;
#[cfg(test)]
mod of_report_text;
#[cfg(test)]
mod of_rtt_mean;
#[cfg(test)]
mod of_script_text;
#[cfg(test)]
mod of_server_pick;
#[cfg(test)]
mod of_topo_rules;
#[cfg(test)]
mod of_write_retry;
