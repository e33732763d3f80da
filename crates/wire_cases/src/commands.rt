//! Steps about `cmd_build` and `cmd_outcome`, commands as they are sent and replies as they are read: those of [`steps`],
//! and the facts of [`facts`]. Documents are written as `case_documents` says, and bytes in hexadecimal, two digits each,
//! with blanks between them.
mod asked;
mod facts;
mod given;
mod members;
mod readings;
mod state;
mod steps;

pub use state::State;
