//! Steps about `write_retry` and `watch_step`, one command's attempts and one server's checks: those of [`steps`], with
//! events in the words of [`events`], and the facts of [`facts`].
mod attempts;
mod checks;
mod events;
mod facts;
mod state;
mod steps;

pub use state::State;
