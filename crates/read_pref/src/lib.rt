//! Read preferences: Server Selection, Read Preference.
//!
//! A [`ReadPref`] has a [`Mode`] and a list of tag sets. A [`TagSet`] is a list of [`Tag`]s, each with a name and a value.
//! Which servers a preference lets in is decided in the layer above.
//!
//! Begin with [`ReadPref::new`], which refuses tags beside the mode primary; [`Mode::from_name`] reads a mode as connection
//! strings, scripts and commands name it, and [`Mode::name`] names it so.
#![tactic(auto)]

mod copies;
mod fault;
pub mod laws;
mod mode;
mod read_pref;
mod tag;

pub use fault::TagsOnPrimary;
pub use mode::Mode;
pub use read_pref::ReadPref;
pub use tag::{Tag, TagSet};

/// Want of memory, the error of calls that can fail in no other way.
pub type Memory = std::alloc::AllocError;
