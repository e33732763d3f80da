//! What a soak runs, by a seed and a number of commands: its script, what happens to the members, and its random words (own).
//!
//! ```text
//! commands(alloc, count)         the script
//! plan(alloc, seed, count)       so many acts, each at its turn
//! SeedDice::new(seed)            random words
//! ```
//!
//! A seed gives the same on every machine: the numbers are those of [`Draws`], a generator of 64 bits. `specs/` says which.
#![tactic(auto)]

mod dice;
mod draws;
pub mod laws;
mod plans;
mod script;

pub use dice::SeedDice;
pub use draws::Draws;
pub use plans::plan;
pub use script::commands;
