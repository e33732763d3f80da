//! The bytes of BSON documents (bsonspec.org, version 1.1): a reader and a writer of the binary form.
//!
//! [`encode`] gives the one spelling of a document in which the names of an array are "0", "1" and so on. [`decode`]
//! reads the document at the front of some bytes, or names the first fault from the left with its place. What bytes
//! spell a document is said by the relation `Spells` of `specs/wire/Spelling.antt` in `bson_doc`, apart from both
//! directions; `spelled` of `Spelled.antt` beside it is the one spelling, and `flaw` of `Reading.antt` the first fault.
//! This crate's `specs` name them on. The laws that tie them are the contracts in [`laws`].
//!
//! All kinds of the standard are read and written, those too that it calls deprecated: the type bytes 01 to 13, 7f and
//! ff. A double is kept as its eight bytes and a decimal number as its sixteen; a binary of any subtype is kept as it
//! is. The names of an array's elements may be any names, and are not kept.
//!
//! This product's own limits: a document has at most 100 levels and 48,000,000 bytes.
//!
//! An [`ElementWriter`] writes a document that is not in memory: its elements one behind another, and documents and arrays
//! among them by their beginning and their end. `specs/Writes.antt` says what each call puts there, by the same spelling.
//!
//! Documents, arrays and code with a scope are read by `reading` and written by `writing`, each a cycle of calls; the
//! kinds that hold no document stand apart from them, read by `plain` (with `fixed` and `varying`) and written by
//! `plain_put`.
#![tactic(auto)]

mod appending;
mod decoding;
mod element_writer;
mod encoding;
mod fault;
mod fixed;
pub mod laws;
mod limits;
mod parts;
mod plain;
mod plain_put;
mod put;
mod reading;
mod sizes;
mod span;
mod varying;
mod writing;

pub use appending::append;
pub use bson_doc::BsonFault;
pub use decoding::decode;
pub use element_writer::ElementWriter;
pub use encoding::encode;
pub use fault::EncodeFault;
pub use limits::MOST_LEVELS;
pub use sizes::size;
