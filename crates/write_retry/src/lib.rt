//! What one command does next, and what it comes to: CRUD and Retryable Writes specifications.
//!
//! An [`OpMachine`] drives one command through at most two attempts. It says what is to be done ([`OpMachine::next`]), is
//! told what came of it ([`OpMachine::on`]), and at last gives the command's answer. `specs/Verdict.antt` says what the
//! attempts of a command come to, `specs/Machine.antt` what each event does, and [`laws`] ties the two for every list of
//! events.
//!
//! An [`Outcome`] is what one command came to, as its line in the report says it: the server's answer, or why there is
//! none. [`Outcome::is_ok`] tells a success.
#![tactic(auto)]

mod allowed;
mod attempt_end;
mod events;
pub mod laws;
mod machine;
mod outcome;

pub use attempt_end::AttemptEnd;
pub use events::{Next, OpEvent, Unsent};
pub use machine::OpMachine;
pub use outcome::Outcome;
