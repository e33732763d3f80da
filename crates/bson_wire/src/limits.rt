//! This product's own limits of a document.

/// The greatest total of a document in bytes.
pub const MOST_BYTES: usize = 48_000_000;

/// How many levels a document may have; the document itself is the first one.
pub const MOST_LEVELS: u32 = 100;
