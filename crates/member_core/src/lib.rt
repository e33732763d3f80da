//! Members of a replica set in memory, for trying a client without a database: their logs, and how often a write stands in
//! them.
//!
//! [`Member::new`] makes the member at a place of the set's hosts, which are within a bound ([`is_within`]).
//! [`Member::answer`] answers a request by the bytes of one message: a hello by the member's role, a write by its result,
//! or by a refusal where the member takes no writes. A write is known by its [`Key`], so that one that comes again is not
//! done again; what was done stands in the log as a [`LogEntry`]. [`Member::elect`] makes a member primary,
//! [`Member::follow`] makes it a secondary with another's log.
//!
//! A net that plays members tells what they did among its events ([`net_link::NetEvent`]). `specs/Logs.antt` says what such
//! a history leaves: a log for each member, who takes writes, who was elected last, and which writes were acknowledged.
//! `specs/Honest.antt` says which histories are honest. [`laws`] says that in an honest history each write stands at most
//! once in each log, that a write that was answered plainly is never lost, and that these members do as the history says.
//!
//! This product's own: the members, the fields of their answers, and their one rule of elections: who is elected takes the
//! acknowledged entries whose keys it lacks.
#![tactic(auto)]

mod answering;
mod electing;
mod hello_reply;
mod kept_log;
mod key;
pub mod laws;
mod log;
mod member;
mod places;
mod request;
mod sizes;
mod write_reply;

pub use answering::Answered;
pub use key::Key;
pub use log::LogEntry;
pub use member::Member;
pub use sizes::is_within;

/// Want of memory, the error of calls that can fail in no other way.
pub type Memory = std::alloc::AllocError;
