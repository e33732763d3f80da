//! Connection strings, and what they tell a client: Connection String; URI Options.
//!
//! [`Settings`] is a client's configuration: its seeds, the database and the options. Whatever made it, it keeps what the
//! layers above rest on: 1 to 16,777,216 hosts that differ, one host where the connection is direct, sizes of at least 1,
//! times within their bounds. [`Settings::plain`] has each option at its default.
//!
//! [`parse`] reads `mongodb://host[,host..][/[db]][?name=value[&name=value..]]`, or names the first fault, a [`UriFault`].
//! Its definition is `settings_of` of `specs/Reading.antt`; the options are the table of `specs/Options.antt`. A string
//! with credentials is refused, and nothing that is told of it holds any part of them.
//!
//! Calls that allocate take an allocator first.
#![tactic(auto)]

mod choosing;
mod chosen;
mod copies;
mod cutting;
mod decoded;
mod decoding;
mod defaults;
mod escapes;
mod fault;
mod piece;
mod reading;
mod said;
mod seeds;
mod settings;
mod uri_option;
mod values;

pub use fault::{Clash, UriFault};
pub use reading::parse;
pub use seeds::distinct;
pub use settings::Settings;

/// Want of memory, the error of calls that can fail in no other way.
pub type Memory = std::alloc::AllocError;
