//! Whole messages from a net that gives and takes bytes in any pieces.
//!
//! A [`Wire`] is one stream's unsent bytes and half-read message. [`Wire::queue`] gives it the bytes of a request,
//! [`Wire::push`] sends as much of them as the net takes now, and [`Wire::pull`] takes the next message (MongoDB wire
//! protocol, OP_MSG) from the stream, however the net cuts it: the messages come in order, each once, and no byte behind
//! one is read. None of these waits. [`exchange`] pushes and pulls until a message is there or a limit of time is past.
//!
//! How a stream stands is told by the answers:
//!
//! ```text
//!   new ──> open ── Fault, End or Bad ──> shut
//!            │ ▲
//!            └─┘ Done, Whole, NotYet, Memory
//! ```
//!
//! A wire that is shut takes no further call; its stream is to be closed. After `Memory` nothing is lost: what the net
//! took is sent, and what came is held.
//!
//! This product's own rule: a header that is out of order is refused as soon as its sixteen bytes are there, and memory
//! is taken for what came, never for what a length promises.
#![tactic(auto)]

mod answers;
mod exchanging;
pub mod laws;
mod wire;

pub use answers::{Pulled, Pushed};
pub use exchanging::{Exchanged, exchange};
pub use wire::Wire;
