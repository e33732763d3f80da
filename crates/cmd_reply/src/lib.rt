//! What the net gave for a request of a command, and for the greeting of a new connection (MongoDB wire protocol, OP_MSG; MongoDB
//! Handshake; URI Options, socketTimeoutMS).
//!
//! [`attempt_result`] and [`greeting_result`] say what came of a request that is waited for, or that its answer may still come;
//! `specs/Results.antt` has each as a table of what the wire answered.
#![tactic(auto)]

mod attempt;
mod greeting;
mod place;
mod waiting;

pub use attempt::{AttemptResult, attempt_result};
pub use greeting::{GreetingResult, greeting_result};
pub use waiting::Waiting;

/// Want of memory, the error of calls that can fail in no other way.
pub type Memory = std::alloc::AllocError;
