//! One server's connection pool as a book of who waits, who dials, who holds what and what is free: CMAP (Connection
//! Monitoring and Pooling). It has no sockets, no clock and no threads: connections are numbers, moments are arguments,
//! and who waits asks again.
//!
//! A [`PoolBook`] begins paused. In this order it is called:
//!
//! 1. [`PoolBook::ready`] once the server is known, [`PoolBook::clear`] where an error shows that its connections are
//!    worthless, [`PoolBook::close`] where the server leaves the topology.
//! 2. [`PoolBook::enter`] for each check-out. It takes all memory that the check-out will need; no other call takes any.
//! 3. [`PoolBook::sweep`] until it answers `None`, then [`PoolBook::try_take`], again and again while it answers
//!    [`Take::Wait`].
//! 4. After [`Take::Dial`]: [`PoolBook::established`] or [`PoolBook::lost`].
//! 5. [`PoolBook::check_in`] of each connection that was lent; [`PoolBook::leave`] of a ticket that waits no more.
//!
//! What a pool is, when each of these may happen and what it leaves is defined once, in `specs/`, as a judge over the
//! pool's entries; each call moves the pool by one entry that may stand there. [`laws`] has what follows for every list of
//! entries.
#![tactic(auto)]

mod answers;
mod available_list;
mod book;
mod connections;
mod held_list;
mod last_rows;
pub mod laws;
mod rules;
mod state;
mod ticket;
mod ticket_line;

pub use answers::{CloseReason, Fate, Settled, Swept, Take};
pub use book::PoolBook;
pub use connections::{Available, Held};
pub use rules::PoolRules;
pub use state::PoolState;
pub use ticket::Ticket;

/// Want of memory, the error of calls that can fail in no other way.
pub type Memory = std::alloc::AllocError;
