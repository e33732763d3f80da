//! Steps about `read_pref` and `server_pick`, the selections of servers: those of [`steps`], and the facts of [`facts`].
mod criteria;
mod facts;
mod loads;
mod picker;
mod replies;
mod state;
mod steps;
mod values;

pub use state::State;
