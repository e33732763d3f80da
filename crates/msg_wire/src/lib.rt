//! Messages of the MongoDB wire protocol: a reader and a writer of OP_MSG.
//!
//! A [`Message`] has a header (messageLength, requestID, responseTo, opCode), flagBits, and sections: exactly one of kind 0,
//! which holds its document, and any number of kind 1, each a [`Sequence`] of documents under a name. [`write`] gives the
//! bytes of one with a section of kind 0 alone, and [`front_of`] what stands in front of its document; [`read`] reads the
//! message at the front of some bytes, or names the first fault that it meets, with its place. Which bytes frame a message
//! is said by the relation `Framed` of `specs/Framing.antt`, apart from both directions; `frame` there is what `write`
//! gives, and `flaw` of `specs/Reading.antt` is the first fault. [`MsgFault::place`] is where in the message it stands. The
//! laws that tie them are the contracts of [`laws`].
//!
//! A caller that takes messages from a stream reads 16 bytes and calls [`read`]: a header that is out of order is refused
//! at once, before anything that it promises is waited for. Else [`MsgFault::Short`] says how many bytes the message has,
//! as [`need`] does; the caller reads exactly those, and calls [`read`] again. `specs/Asking.antt` says what it can rely on,
//! `specs/Fronts.antt` what it holds until then, and `specs/Messages.antt` what messages one after another are.
//!
//! This product's own: a message has at most 48,000,000 bytes and exactly one section of kind 0. The four bytes of a
//! checksum (flag bit 0) are counted by messageLength, and are skipped: they are not compared.
#![tactic(auto)]

mod documents;
mod fault;
mod fields;
mod flags;
pub mod laws;
mod limits;
mod message;
mod reading;
mod section;
mod sections;
mod sequence;
mod sequences;
mod writing;

pub use fault::MsgFault;
pub use message::Message;
pub use reading::{need, read};
pub use sequence::Sequence;
pub use writing::{front_of, write};
