//! Documents as the words of a case file's line: what runner programs share whose cases are documents.
//!
//! A document is `NAME=VALUE` for each element. [`document`] reads one of all words that are left of a line,
//! [`plain_value`] says how a value that holds no document is written, and [`push_elements`] writes a document so.
#![tactic(auto)]

mod documents;
mod shown;
mod values;

pub use documents::document;
pub use shown::push_elements;
pub use values::{name, plain_value, text};
