//! What a trail says of each command: how many of its attempts ended, and how it was answered (Retryable Writes).
//!
//! A [`Tally`] is kept for each command, by its place; [`note`] counts what was appended to a trail, entry by entry, so that a
//! report needs no second pass over it. [`laws`] says what follows from tallies and answers.
#![tactic(auto)]

pub mod laws;
mod tallies;
mod tally;

pub use tallies::{fresh_tallies, is_answered, note};
pub use tally::Tally;
