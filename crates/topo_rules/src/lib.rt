//! The topology and how an event changes it: Server Discovery and Monitoring (SDAM), TopologyDescription and Updating the
//! TopologyDescription.
//!
//! A [`Topology`] begins with [`Topology::start`], of its seeds. [`Topology::apply`] takes an event in, a [`TopoEvent`]:
//! a hello reply, a broken check or connection, or a command that was refused by a state change error. It answers what
//! the event changed, a [`Change`]. [`Topology::after`] gives the new topology beside the old one.
//!
//! Contracts see the servers as a finite map from host to description. The table of the standard is data, `Cell`, and each
//! rule is one function with the name that it has in the standard's pseudo code.
//!
//! Calls that allocate take an allocator first, and answer [`Memory`] where they get none: the topology is then as it was.
#![tactic(auto)]

mod cell;
mod change;
mod compared;
mod event;
mod kind;
mod kinds;
pub mod laws;
mod made;
mod maxima;
mod outcome;
mod primary;
mod readings;
mod rules;
mod same;
mod served;
mod servers;
mod table;
mod texts;
mod topology;

pub use change::Change;
pub use event::TopoEvent;
pub use kind::TopoKind;
pub use topology::Topology;

/// Want of memory, the error of calls that can fail in no other way.
pub type Memory = std::alloc::AllocError;
