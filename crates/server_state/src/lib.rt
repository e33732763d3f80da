//! Where each server of a client is: its address, its pool with the streams of its connections, and its checks (SDAM, Server
//! Monitoring; CMAP).
//!
//! A [`Server`] moves by what happens to it, call by call, as `desk_trail` says that a server moves by the entries of a trail:
//! contracts see it as that crate's `ServerState` (`specs/States.antt` there). Between two calls nothing must come next of its
//! pool: a call of which the pool owes more entries moves it past those too. Only [`Server::enter`] takes memory.
//!
//! ```text
//!   Server::new
//!     begin_check, find_dry, end_check, ask                  its checks
//!     ready_pool, clear_pool                                 its pool, by what a check told
//!     enter, sweep, take                                     a command asks for a connection
//!       keep_stream, established | lost                      and dials one
//!     check_in                                               and gives it back
//!   leave, shut_pool                                         it leaves the topology
//! ```
#![tactic(auto)]

mod check_outs;
mod checks;
mod pool;
mod server;

pub use server::Server;

/// Want of memory, the error of calls that can fail in no other way.
pub type Memory = std::alloc::AllocError;
