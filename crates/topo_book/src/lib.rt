//! The topology with the events that it accepted: Server Discovery and Monitoring (SDAM), error handling and
//! topologyVersion.
//!
//! A [`TopoBook`] begins with [`TopoBook::new`], of a topology. [`TopoBook::offer`] is handed an event and the generation
//! of its host's pool, and answers whether the event is accepted, a [`Taken`]: an event of a host that is gone, of a
//! topology version that is behind the one that is kept, or of a connection that the pool has cleared is not, and
//! changes nothing. [`TopoBook::topology`] is what the accepted events made of the opening one, in order, and
//! [`TopoBook::accepted`] lists them. [`offers_make_lists`] is the law over any list of
//! offers, and [`mean_is_of_samples`] that of the mean round trip times.
//!
//! Calls that allocate take an allocator first, and answer [`Memory`] where they get none: the book is then as it was.
#![tactic(auto)]

mod book;
mod laws;
mod taken;
mod verdict;

pub use book::TopoBook;
pub use laws::{mean_is_of_samples, offers_make_lists};
pub use taken::Taken;

/// Want of memory, the error of calls that can fail in no other way.
pub type Memory = std::alloc::AllocError;
