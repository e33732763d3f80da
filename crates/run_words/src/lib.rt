//! The words of the program's command line (own): `run URI`, or `soak SEED N`.
//!
//! [`read_words`] gives the [`Task`] that words ask for: a run over the deployment of a connection string (Connection String;
//! URI Options), or a soak, of a seed from 0 to 18446744073709551615 and 1 to 100,000 commands. Words that ask for nothing are
//! refused for their first fault. Want of memory is told only for words that are in form: `run` and one word, or `soak` and
//! two numbers in range. Any other words are refused whatever the memory.
#![tactic(auto)]

mod fault;
mod line;
mod numbers;
mod task;
mod words;

pub use fault::UseFault;
pub use task::Task;
pub use words::{WordStop, read_words};
