//! The core of a client: what a driver does between an application's commands and its servers (SDAM, Server Monitoring; Server
//! Selection; CMAP; Driver Sessions; Retryable Writes).
//!
//! A [`Desk`] holds all of a client's state, its net and its picker. Each call is one step: it waits for nothing, and appends what
//! it did to the desk's trail, of which `desk_trail` says what is legal.
//!
//! ```text
//!   Desk::new          names the seeds
//!     next_due         whose check comes next, and when
//!     step_check       begins, drives or ends one check
//!     next_of          which command of a lane comes next
//!     step_op          moves one command as far as it goes without waiting
//!   finish             closes the pools and the streams
//! ```
//!
//! A command looks for a server (`looking`, `deadlines`), is equipped with a session and a number (`equipping`), enters the line of
//! its server's pool (`entering`), checks a connection out there (`checking_out`, `greeting`), sends its request (`sending`), takes
//! the reply and gives the connection back (`receiving`, `checking_in`), and does so again or is answered (`answering`); `op_steps`
//! and `going` join these phases.
//!
//! Contracts see a desk as `Desk` of `specs/State.antt`: its net, its trail with the point to which that leads, its picker, the
//! moment of its last step, and whether it stopped for want of memory. Read `State`, `Appends`, `Sights`, `Due`, `Steps`, `Nexts` and
//! `Ending`; what private functions keep among themselves stands in the other files of `specs`, `Kept` and `Commands` first.
//! Calls that allocate take an allocator.
#![tactic(auto)]

mod answering;
mod begun;
mod check_result;
mod checking_in;
mod checking_out;
mod checks;
mod closings;
mod counts;
mod deadlines;
mod desk;
mod driven;
mod due;
mod ending;
mod entering;
mod equipping;
mod finished;
mod going;
mod greeting;
mod hello;
mod lanes;
mod leaving;
mod lending;
mod looking;
mod naming;
mod offers;
mod op_steps;
mod opening;
mod operation;
mod parts;
mod pools;
mod progress;
mod receiving;
mod reserving;
mod sending;
mod shutting;
mod sight;
mod state;
mod stepping;
mod words;

pub use desk::Desk;
pub use finished::{Finished, Returned};
pub use sight::{Due, Sight};
pub use words::Words;

/// Want of memory, the error of calls that can fail in no other way.
pub type Memory = std::alloc::AllocError;
