//! Steps about `sess_book` and `time_gossip`, a client's sessions and the cluster time: those of [`steps`], and the facts of
//! [`facts`].
mod calls;
mod facts;
mod state;
mod steps;

pub use state::State;
