//! By which keys the members of a replica set know a client's requests (Retryable Writes; Driver Sessions): a law of every legal
//! trail.
//!
//! - [`keys`]: each request is one message; all requests of a command have one key, and those of two commands have two.
#![tactic(auto)]

pub mod keys;
