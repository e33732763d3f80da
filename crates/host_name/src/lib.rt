//! Hosts, the names and ports of servers: Connection String, Host Information; SDAM, ServerDescription, address.
//!
//! [`Host::parse`] reads `name`, `name:port`, `[v6]` or `[v6]:port` and puts A to Z in lower case, since SDAM compares
//! addresses in lower case. The port is 27017 where it is absent, and a name in brackets keeps them. A host is shown as
//! `name:port`; hosts stand in the order of their names' bytes, and then of their ports.
//!
//! Begin with [`Host::parse`]; [`Host::copy`] gives an equal host, [`Host::name`] and [`Host::port`] read one.
//! Calls that allocate take an allocator first.
#![tactic(auto)]

mod fault;
mod host;
mod parse;

pub use fault::HostFault;
pub use host::Host;

/// Want of memory, the error of calls that can fail in no other way.
pub type Memory = std::alloc::AllocError;
