//! Documents from JSON values (RFC 8259), as scripts of commands write them.
//!
//! [`from_json`] reads a `serde_json` value that is an object. Integers in i32's range become Int32 and others in i64's
//! range Int64; texts, truth values, null, arrays and objects become their kinds. The claim begins at the parsed value:
//! which value a text has is `serde_json`'s matter. Its objects hold each name once, in the order of the names' bytes, and
//! so do the documents.
//!
//! What has no place in a document is a [`TextFault`]. The value is walked in order: a member's name comes before its
//! value, and an array or object that lies too deep before anything in it. The first fault is told, with a path of names
//! and of items' places from 0, joined by points.
#![tactic(auto)]

mod fault;
mod flaw;
mod reading;
mod walk;

pub use fault::TextFault;
pub use reading::from_json;

/// Want of memory, the error of calls that can fail in no other way.
pub type Memory = std::alloc::AllocError;
