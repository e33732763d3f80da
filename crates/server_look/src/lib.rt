//! One look of a command for a server, by what a client knows now (Server Selection).
//!
//! [`look`] reads the topology, the servers and what is in flight, asks the picker of each candidate, and says what
//! `desk_trail`'s entry of a look says: which hosts were kept, and whether one of them was chosen. [`may_look`] tells whether a
//! look may stand now: at or past the deadline ([`deadline`]) only once every server of the topology was checked for the
//! selection. Contracts are in that crate's words (`specs/Looks.antt` there), over what `specs/Inputs.antt` here says of the
//! inputs.
//!
//! [`look`] takes all its memory before the picker is asked.
#![tactic(auto)]

mod checked;
mod criteria;
mod input;
mod loads;
mod looking;
mod numbers;

pub use checked::{deadline, may_look};
pub use input::{Asking, Input};
pub use looking::{LookAnswer, look};

/// Want of memory, the error of calls that can fail in no other way.
pub type Memory = std::alloc::AllocError;
