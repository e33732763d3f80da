//! BSON values in memory: texts, lists, names, values and documents.
//!
//! The kinds of [`Value`] are those of the BSON standard (bsonspec.org, version 1.1), all of them. Which bytes spell a
//! document is defined here (`specs/wire`: `Spells`, and the first fault of bytes, a [`BsonFault`]), since whatever reads
//! bytes cites it; the crate `bson_wire` reads and writes them.
//!
//! A [`Document`] is plain data: its public field `elements` is the list of its pairs of name and value, and contracts
//! compare documents by `≡`. [`Text`], [`Rows`] and [`Bytes`] are `String` and `Vec` that contracts see as lists, so
//! that no capacity and no pointer takes part in a comparison; [`Buffer`] is a `Vec` whose reserved room contracts see
//! beside its items. A [`Name`] is a text without a zero byte. [`Oid`], [`Lsid`], [`TopologyVersion`] and [`ClusterTime`]
//! are what servers and sessions are told apart and ordered by.
//!
//! Begin with [`Document::new`], add pairs by [`Document::put`] or [`Document::push`], read them by [`Document::get`] and
//! [`Document::at`], and compare documents by [`Document::same`]. Every call that allocates takes an allocator and
//! answers [`Memory`] where it gets none.
#![tactic(auto)]

mod bson_fault;
mod buffer;
mod cluster_time;
mod copy;
mod depth;
mod document;
mod ids;
mod kind;
mod name;
mod readings;
mod rows;
mod same;
mod text;
mod topology_version;
mod value;

pub use bson_fault::BsonFault;
pub use buffer::Buffer;
pub use cluster_time::ClusterTime;
pub use ids::{Lsid, Oid};
pub use kind::{Kind, PlainKind};
pub use name::{HasNul, Name, NameFault, first_zero};
pub use rows::{Bytes, Rows};
pub use same::same_bytes;
pub use text::Text;
pub use topology_version::TopologyVersion;
pub use value::{Document, Value, is_one};

/// Want of memory, the error of calls that can fail in no other way.
pub type Memory = std::alloc::AllocError;
