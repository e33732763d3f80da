//! Steps about `hello_reply`, `topo_rules` and `topo_book`, the hello replies of servers, the topologies that events make,
//! and the books of accepted events: those of [`state`], and the facts of [`facts`].
mod books;
mod changes;
mod descriptions;
mod events;
mod facts;
mod kinds;
mod replies;
mod state;
mod steps;
mod topologies;
mod values;

pub use state::State;
