//! A client's requests, with their ids and their bytes (MongoDB wire protocol; MongoDB Handshake; Server Monitoring; CRUD).
//!
//! [`hello_request`] is the hello of a check or of a greeting, [`farewell_request`] the end of sessions. [`command_request`] is the
//! request of a command that has a connection, or the sizes by which it is too large. Contracts are in the words of `desk_trail`
//! (`specs/Requests.antt` and `specs/Owed.antt` there); `specs/Inputs.antt` says of which client a command's inputs are.
#![tactic(auto)]

mod command;
mod extras;
mod farewell;
mod hello;
mod ids;
mod made;
mod sending;

pub use command::command_request;
pub use farewell::farewell_request;
pub use hello::{HelloFor, hello_request};
pub use ids::id_of;
pub use made::MadeRequest;
pub use sending::{CommandRequest, SendAt, Sending};

/// Want of memory, the error of calls that can fail in no other way.
pub type Memory = std::alloc::AllocError;
