//! Server selection: which servers of a topology may take an operation, and which one does (Server Selection).
//!
//! [`pick_by`] filters the servers by what an operation needs, its [`Criteria`], shows each that is left to a [`Picker`], in
//! the order of hosts, and draws one of those kept whose mean round trip time is within the latency window. It answers the
//! host, or why there is none, a [`Picked`]. How many operations are in flight is told by [`Loads`]. [`pick`] does the same with a
//! picker and loads that are objects.
//!
//! Calls that allocate take an allocator first, and all memory is taken before the picker is asked.
#![tactic(auto)]

mod asking;
mod candidate;
mod choice;
mod concluding;
mod criteria;
mod gathering;
pub mod laws;
mod loads;
mod objects;
mod picked;
mod picker;
mod picking;
mod preparing;
mod sieve;
mod suitable;
mod tags;
mod window;

pub use candidate::Candidate;
pub use criteria::{Criteria, Need};
pub use loads::Loads;
pub use objects::pick;
pub use picked::Picked;
pub use picker::{KeepAll, Picker};
pub use picking::pick_by;

/// Want of memory, the error of calls that can fail in no other way.
pub type Memory = std::alloc::AllocError;
