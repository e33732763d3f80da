//! Tests of the crates of trails, and of the members that a client is tried with.
//!
//! There is a file for each crate that is tested, as `of_desk_trail` for `desk_trail`: public calls on their happy
//! paths, and what no clause of a contract says. Beside the tests stand the settings that they begin with
//! ([`seeds`]). The tests stand apart from the crates that they test, since a crate that has tests is proved once
//! more with them.
#![tactic(auto)]

#[cfg(test)]
mod of_desk_trail;
#[cfg(test)]
mod of_legal_trail;
#[cfg(test)]
mod of_member_core;
#[cfg(test)]
mod of_trail_worked;
#[cfg(test)]
mod of_wired_trail;
pub mod seeds;
