//! What the answers of a client's commands rest on (Retryable Writes; MongoDB wire protocol): a law of every legal trail.
//!
//! - [`replies`]: a command that was answered ok has a request whose reply said so.
#![tactic(auto)]

pub mod replies;
