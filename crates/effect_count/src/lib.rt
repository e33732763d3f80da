//! How often each command of a client took effect, by the log of a member of a replica set that is played in memory (Retryable
//! Writes).
//!
//! A log names a request by its stream and its number on it. A [`RequestIndex`] says of which command that request is, and counts.
//! [`laws`] says what a trail's requests on a stream are.
#![tactic(auto)]

mod index;
pub mod laws;

pub use index::RequestIndex;
