//! Steps about `script_text`, what the lines of scripts ask for: those of [`steps`], and the facts of [`facts`].
mod acts;
mod facts;
mod faults;
mod state;
mod steps;

pub use state::State;
