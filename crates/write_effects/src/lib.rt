//! How often a client's writes take effect (Retryable Writes): what a legal trail, the history of its net and honest members come to.
//!
//! - [`once`]: each command takes effect at most once; a write that was answered ok has taken effect once.
#![tactic(auto)]

pub mod once;
