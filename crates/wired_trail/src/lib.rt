//! A legal trail with the net that its client talks over.
//!
//! A [`WiredTrail`] has a trail that is legal by its type, a net, and for each stream that is in use its wire and what it is
//! for. A stream is dialled with [`WiredTrail::dial`]; a request that [`WiredTrail::ask`] writes into the trail is queued on its
//! stream whole; [`WiredTrail::turn`] sends and receives what the net takes and has now, and closes a stream that came to its
//! end.
//!
//! Contracts see it as a `Standing` (`specs/Standing.antt`): the net, the lines (`specs/Lines.antt`) and the trail. A stream that
//! is dialled has a number that the trail never told of, since all those lie below the net's mark.
#![tactic(auto)]

mod finished;
mod lines;
mod pending;
mod pendings;
mod stream_use;
mod trail;

pub use finished::Finished;
pub use stream_use::StreamUse;
pub use trail::WiredTrail;

/// Want of memory, the error of calls that can fail in no other way.
pub type Memory = std::alloc::AllocError;
