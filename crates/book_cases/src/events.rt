//! Steps about `drv_events`, who hears which of a client's events: those of [`steps`], and the facts of [`facts`].
mod events;
mod facts;
mod recorder;
mod state;
mod steps;

pub use state::State;
