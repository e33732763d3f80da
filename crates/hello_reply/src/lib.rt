//! Server descriptions from hello replies: Server Discovery and Monitoring (SDAM), ServerDescription.
//!
//! [`describe`] reads a server's reply to `hello` as one [`ServerDescription`], or names the first field that is at
//! fault. A reply whose `ok` is not one describes its server as Unknown. [`default_unknown`] is the description of a server of
//! which nothing is known, [`ServerDescription::copy`] gives an equal one, and [`compare_version`] says which of two
//! topology versions is the older.
//!
//! Calls that allocate take an allocator first.
#![tactic(auto)]

mod column;
mod copies;
mod defaults;
mod describing;
mod fault;
mod field_name;
mod fields;
mod kinds;
mod listed;
mod readers;
mod server_description;
mod server_kind;
mod tag;
mod versions;

pub use defaults::default_unknown;
pub use describing::describe;
pub use fault::ReplyFault;
pub use field_name::FieldName;
pub use server_description::ServerDescription;
pub use server_kind::ServerKind;
pub use tag::Tag;
pub use versions::compare_version;

/// Want of memory, the error of calls that can fail in no other way.
pub type Memory = std::alloc::AllocError;
