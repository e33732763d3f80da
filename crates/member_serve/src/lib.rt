//! One member of a replica set as a server: what the words of its command line ask for, the member, and the connections of
//! its clients, over any net ([`net_link::Net`]).
//!
//! ```text
//!   read_words(words)              the settings that they ask for, or that they are refused
//!   member_of(settings)            the member that is served, as a set of one
//!   Connection::new(stream)        the connection of a client, which is that stream
//!   connection.turn(net, member)   sends what is unsent, takes the next request and has the member answer it
//! ```
//!
//! A turn never waits, and does little: it sends as much of the last answer as the net takes now, and only where all of
//! that is sent it takes the next message and queues its answer. So a client that does not read what it asked for is not
//! read from either, and a connection keeps at most one message that came and one that goes out. [`Served`] says what a turn
//! did; whoever serves many connections gives each its turns.
//!
//! ```text
//!   new ──> open ── Over ──> its stream is to be closed
//!            │ ▲
//!            └─┘ Answered, NotYet
//! ```
//!
//! The bytes of messages are taken by [`desk_wire::Wire`] (MongoDB wire protocol, OP_MSG), and each answer is that of
//! [`member_core::Member::answer`]. This product's own: the words, and that the member acknowledges each write alone.
#![tactic(auto)]

mod connection;
mod member;
mod served;
mod settings;

pub use connection::Connection;
pub use member::member_of;
pub use served::Served;
pub use settings::{Settings, read_words};

/// Want of memory, the error of calls that can fail in no other way.
pub type Memory = std::alloc::AllocError;
