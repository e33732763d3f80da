//! A trail that is legal by its type.
//!
//! A [`LegalTrail`] is what a client was given and the trail that it has written so far. It takes no entry but one that may
//! stand next, so whoever holds one holds a legal trail: `specs/Legal.antt` of the crate `desk_trail` says what that is.
//! Contracts see it as a `Recorded` (`specs/Recorded.antt`), which carries the point behind the entries.
#![tactic(auto)]

mod parts;
mod trail;

pub use parts::Parts;
pub use trail::LegalTrail;

/// Want of memory, the error of calls that can fail in no other way.
pub type Memory = std::alloc::AllocError;
