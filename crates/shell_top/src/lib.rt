//! The top call of the program: what the command line asks for is done, and a report says what came of it (own).
//!
//! [`run`] reads the words. Those of a run give a connection string: [`run`] reads the whole script, and runs its commands over a
//! client's core, a `desk_core` desk, that finds the servers, checks them, keeps connections and sends a lost write again. A script
//! that names two lanes or more has a thread for each lane and one that drives checks, by `desk_share`; of any other, one thread
//! steps the first command that is not answered, and drives the checks of the servers and rests while that waits. Behind the last
//! command the desk is ended, and the report is made of its trail: one line a command, and a last one that counts them. Those of a
//! soak give a seed: the commands are the seed's, over members of a replica set that are played in memory (`member_hall`), and
//! seven lines sum up. What either leaves is [`Ended`]. It works over any source, sink, net, clock, dice and gate, and with an
//! application's listeners and its picker; its contract says what each [`Status`] means.
//!
//! One run's way: `run_words` reads what is asked for, `script_text` the script; `running` makes the desk, and starts the lanes
//! where there are several; `playing` has `driving` run the commands that are not answered and ends it; `waiting` drives checks;
//! `trail_tally` counts, of what was appended to the trail, each command's attempts, and keeps its answer; `report` tells the lines.
//! A soak's way: `soak_plan` gives its commands and what happens to the members, `soaking` makes these and the desk, which `playing`
//! runs; `summing` counts, `summary` tells the lines.
#![tactic(auto)]

mod context;
mod driving;
mod playing;
mod report;
mod running;
mod soaking;
mod status;
mod summary;
mod summing;
mod waiting;

pub use run_words::UseFault;
pub use running::run;
pub use status::{Ended, Status};
