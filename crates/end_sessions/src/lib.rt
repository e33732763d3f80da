//! The end of a client's sessions (Driver Sessions, endSessions).
//!
//! As a client ends, the sessions that were given back are told to servers as ended, so that those need not keep them:
//! [`end_sessions`] asks a farewell for each list of their ids, each on an available connection of its own, while there is one of a
//! server to which a read may go that prefers the primary. It is written, and its answer is not read. Contracts are in the words
//! of `desk_trail` (`specs/Requests.antt` there); `specs/Farewells.antt` says what is asked, and of which sessions.
#![tactic(auto)]

mod asking;
mod ending;
mod hosts;

pub use ending::{Ending, end_sessions};

/// Want of memory, the error of calls that can fail in no other way.
pub type Memory = std::alloc::AllocError;
