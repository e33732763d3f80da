//! Commands, and the documents that they send (CRUD; Find, getMore and killCursors; Driver Sessions; Stable API).
//!
//! A [`Command`] names its collection, a database where it is not the client's own, the lane that runs it, and its
//! [`Act`]. [`measure`] says how many bytes its message has, with the [`Extras`] of its session and its server, or by how
//! much it is larger than the server's [`Sizes`]; [`append`] writes the document that it sends. [`hello`] and [`farewell`] are the documents that no command asks for:
//! what a check or a greeting sends, and what ends sessions.
//!
//! `specs/Commands.antt` has each document as the list of its pairs, a line each.
#![tactic(auto)]

mod act_fields;
mod building;
mod command;
mod extras;
mod fault;
mod handshakes;
pub mod laws;
mod op;
mod parts;
mod preference;
mod sizes;

pub use building::append;
pub use command::{Act, Command, is_retryable, is_write};
pub use extras::{Extras, Sizes};
pub use fault::BuildFault;
pub use handshakes::{farewell, hello};
pub use op::Op;
pub use sizes::measure;

/// Want of memory, the error of calls that can fail in no other way.
pub type Memory = std::alloc::AllocError;
