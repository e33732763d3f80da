//! The trail of all that a client did, and which trails are legal (SDAM, Server Monitoring, Server Selection, CMAP, Driver
//! Sessions, Retryable Writes).
//!
//! A [`Trail`] is a list of [`Entry`]s with their moments, and the lists whose places they name. A [`TrailWriter`] appends to
//! one within room that was taken ahead.
//!
//! The definitions are what a reader has to believe, and are read in this order:
//!
//! - `specs/Clients.antt`: what a client was given. `specs/Facts.antt`: what an entry says, with what stands at its place.
//! - `specs/States.antt`: a client at a point of its trail: its topology, servers, sessions and commands.
//! - `specs/Legal.antt`: when each kind of entry may stand, what the client is behind it, and what must follow it at once, one
//!   line a kind in each of the three; `IsLegal` and `IsComplete`.
//! - What these lines cite, by subject: `Owed` (what must come next), `Topologies`, `Checks`, `Looks`, `Leases`, `Pools`,
//!   `Attempts`, `Requests`.
//! - `specs/Streams.antt`: what a trail says of each stream. `specs/Lanes.antt`: commands that run in lanes.
//!
//! [`laws`] says what holds of every legal trail.
#![tactic(auto)]

mod entry;
pub mod laws;
mod request;
mod room;
mod step;
mod trail;
mod writer;

pub use entry::{CheckHow, Entry, LookedHow, OfferedHow};
pub use request::{Purpose, Request};
pub use room::Room;
pub use step::Step;
pub use trail::Trail;
pub use writer::TrailWriter;

/// Want of memory, the error of calls that can fail in no other way.
pub type Memory = std::alloc::AllocError;
