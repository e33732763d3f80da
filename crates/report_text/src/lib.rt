//! The report of a run: a line for each option that was ignored, a line a command, and a last line that counts them (own).
//!
//! [`ignored_line`] tells an option that was ignored, [`line`] a command's outcome, [`last_line`] how many commands there were
//! and how many were carried out. Each line ends with a line feed; `specs/Lines.antt` says which bytes a line has.
#![tactic(auto)]

mod lines;

pub use lines::{ignored_line, last_line, line};
