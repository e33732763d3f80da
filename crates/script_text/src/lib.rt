//! Scripts: texts of commands, one JSON object (RFC 8259) a line.
//!
//! [`read_script`] takes a script of at most 16,777,216 bytes from a source and answers its commands in order, at most
//! 100,000, or the first fault with its line. A line ends with LF, and a CR before it is dropped; the last line needs no
//! LF. A line of spaces alone, or of nothing, is skipped and counted. Each other line is an object in UTF-8 with the members
//! of its command and no others:
//!
//! | Member | Value | For |
//! |---|---|---|
//! | `lane` | an integer from 1 to 64 | all |
//! | `op` | `insert`, `update`, `delete`, `findAndModify`, `find` | all |
//! | `coll` | a text, not empty, without a zero | all |
//! | `db` | the same, or absent | all |
//! | `doc` | an object | insert |
//! | `filter` | an object | the others |
//! | `change` | an object | update; findAndModify without `remove` |
//! | `multi`, `upsert` | a truth value, or absent for false | update |
//! | `limit` | 0, which stands for all, or 1, or absent for 1 | delete |
//! | `remove` | true, or absent | findAndModify |
//! | `mode` | the name of a mode, or absent for the client's own preference | find |
//! | `tags` | an array of objects of texts, no name with a zero, beside a mode other than primary; or absent | find |
//!
//! Lines are read in order, and in a line the faults are, in this order, that it does not parse or nests past 127 levels,
//! that it has not this shape, that the lane is out of its range, and that a document is at fault, the filter ahead of the
//! change.
//!
//! The claim begins at the parsed value: which value a line's text is, and that a member which stands twice counts by its
//! last value, is `serde_json`'s definition (`Read.read`), which contracts here cite and do not judge.
#![tactic(auto)]

mod acts;
mod command;
mod fault;
mod head;
mod line;
mod lines;
mod member;
mod reads;
mod script;
mod stop;
mod taking;
mod values;

pub use fault::{ScriptFault, ScriptKind, ScriptRead};
pub use script::read_script;

/// Want of memory, the error of calls that can fail in no other way.
pub type Memory = std::alloc::AllocError;
