//! Steps about `wait_line` and `pool_book`, the lines in which check-outs wait and the pools of connections: those of
//! [`steps`], and the facts of [`facts`].
mod calls;
mod facts;
mod lines;
mod state;
mod steps;

pub use state::State;
