//! What a command does with its session, as entries of the trail (Driver Sessions; Retryable Writes).
//!
//! A [`LeaseBook`] has the sessions of a client, with the lease of each that is out; it is what `sess_book` makes it, and a session
//! is known by its place. Each call appends one entry that may stand, within room that was taken, and moves the sessions and the
//! command as `desk_trail` says that this entry moves them (`specs/Leases.antt` there).
//!
//! ```text
//!   lease        at its choice, where RunningCommand::minutes_needed
//!   draw         at its choice, where RunningCommand::needs_number
//!   give_back    once it was answered: the entry that must come next
//! ```
#![tactic(auto)]

mod command_at;
mod drawing;
mod lease_book;
mod leasing;
mod returning;
mod taken;

pub use command_at::CommandAt;
pub use drawing::draw;
pub use lease_book::LeaseBook;
pub use leasing::{LeaseAnswer, lease};
pub use returning::give_back;
pub use taken::{Taken, Words};

/// Want of memory, the error of calls that can fail in no other way.
pub type Memory = std::alloc::AllocError;
