//! Members of a replica set that are played in memory, with a plan of what happens to them: a net ([`net_link::Net`]) for trying
//! a client without a database.
//!
//! A [`Hall`] has a member for each host. Each dial, write and read is a turn. At its start the [`Act`]s of the plan
//! ([`Planned`]) whose turn has come happen, in order; a request that a write completes is handled at the write's end.
//!
//! ```text
//! Hall::new(set, hosts, acts)        or why there is none: HallFault
//!   dial, write, read, close         as the trait of nets says
//!   events                           the history: it is honest behind any calls
//!   log, elections, last_elected     what the history tells of the members
//! ```
//!
//! A hall is made of these. A [`Peer`] is a member ([`member_core::Member`]) and what happened to it: [`Peer::meet`] is an act that
//! concerns it alone. A [`Line`] is a stream to it. A request that stands whole at the front of a line comes to its member by
//! [`request`], which handles, answers, refuses or postpones it as the member's next [`Rule`] says, and writes what the history
//! tells of it; [`handle_late`] handles one that was postponed. Each is done whole, or where memory runs out not at all.
//!
//! `specs/Halls.antt` has all members, streams and the history together, `specs/Turns.antt` what happens at the start of a turn,
//! and `specs/Calls.antt` what each call answers and leaves behind it. [`laws`] says that each step keeps the history honest
//! (`IsSound` of `specs/Honest.antt`, which each hall keeps).
//!
//! This product's own: all of it.
#![tactic(auto)]

mod act;
mod answer;
mod electing;
mod fault;
mod hall;
mod hall_core;
mod late;
pub mod laws;
mod line;
mod making;
mod peer;
mod place;
mod plan;
mod refusal;
mod requests;
mod rule;
mod shares;
mod tail;

pub use act::{Act, Planned};
pub use answer::Answer;
pub use fault::HallFault;
pub use hall::Hall;
pub use late::LateRequest;
pub use line::Line;
pub use peer::Peer;
pub use place::Place;
pub use requests::{handle_late, request};
pub use rule::Rule;
pub use tail::Tail;

/// Want of memory, the error of calls that can fail in no other way.
pub type Memory = std::alloc::AllocError;
