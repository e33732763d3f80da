//! Case files and how they are run: what the runner programs share.
//!
//! A case file is text. A line that begins at its margin is a step, words with blanks between them; the lines behind it
//! that begin with two blanks say what must stand behind the step, one fact a line, each named by its first word. Empty
//! lines, and lines that begin with `#`, say nothing.
//!
//! ```text
//! reply b Primary set=rs hosts=a,b e=1 v=9
//!   topology WithPrimary set=rs e=1 v=9 a=Unknown b=Primary
//! ```
//!
//! A runner program has a [`Subject`], takes each step by [`Subject::step`] and tells facts by [`Subject::fact`]. An
//! expected line is compared with the told fact as text. [`run_files`] runs the files that the program's arguments name,
//! prints a line of counts for each, and ahead of it each complaint with file and line. These are complaints: a fact that
//! is another one, or of no such name; a word that a step does not have, or has twice; a step that cannot be taken, or
//! with nothing expected behind it; an expected line ahead of all steps, or with another indent; a file without steps, and
//! a case file beside the named ones that is not named itself.
//!
//! Calls that allocate take an allocator first.
#![tactic(auto)]

mod fault;
mod files;
mod hex;
mod line;
mod report;
mod subject;
mod text;
mod words;

pub use fault::CaseFault;
pub use files::run_files;
pub use hex::{hex_bytes, push_hex};
pub use report::Report;
pub use subject::Subject;
pub use text::run_text;
pub use words::{Words, parsed};

/// Want of memory, the error of calls that can fail in no other way.
pub type Memory = std::alloc::AllocError;
