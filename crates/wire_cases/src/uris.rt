//! Steps about `conn_uri`, connection strings and settings: those of [`steps`], and the facts of [`facts`].
mod facts;
mod spelling;
mod state;
mod steps;

pub use state::State;
