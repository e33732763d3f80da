//! Tests of runs whose commands are of several lanes, and of an application's listeners and picker in a run, over members in memory.
//!
//! Nothing of a contract says that two threads ran at once, that a waiting lane is served, or that the watcher drives checks: here gates
//! hold lanes until something came, and give up after a while. The clock is the machine's, since one in memory that is rested on by
//! several threads would pass the limits of time of whoever the system lets wait.
#![tactic(auto)]

#[cfg(test)]
mod of_events;
#[cfg(test)]
mod of_lanes;
#[cfg(test)]
mod of_listeners;
#[cfg(test)]
mod of_picker;
#[cfg(test)]
mod real_clock;
pub mod setting;
pub mod shared_count;
