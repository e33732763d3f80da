//! The server sessions of a client: Driver Sessions, Server Session Pool, and the transaction numbers of retryable writes.
//!
//! A [`SessBook`] leases sessions ([`SessBook::take`]), draws transaction numbers ([`SessBook::draw`]) and takes sessions back
//! ([`SessBook::give_back`]). It is defined by entries: `specs/Entries.antt` says when a session may be made, leased again,
//! drawn from and given back, and each call moves the book by one entry that may stand, or changes nothing. [`laws`] says
//! what that means for whole lists of calls: two leases that are out have two ids, and a pair of id and number stands for
//! one draw for ever.
//!
//! Moments are microseconds. Ids that were used are never given to another session of the same book.
#![tactic(auto)]

mod book;
mod ending;
mod ids;
pub mod laws;
mod lease;
mod made;
mod rules;
mod session;

pub use book::SessBook;
pub use ids::fresh_id;
pub use lease::{Lease, Leased, Pair};
pub use session::{Holding, Kept, Session};

/// Want of memory, the error of calls that can fail in no other way.
pub type Memory = std::alloc::AllocError;
