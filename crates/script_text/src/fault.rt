use bson_text::TextFault;
use thiserror::Error;

/// What is wrong with a line of a script. In one line the first that applies is told, in this order.
#[derive(Debug, Drop, Error)]
pub enum ScriptKind {
    /// The line is no JSON in UTF-8, or nests past 127 levels.
    #[error("the line is no JSON")]
    Json,
    /// The value is not an object with the members of a command.
    #[error("the line is no command")]
    Shape,
    /// The lane is an integer outside 1 to 64.
    #[error("the lane is not from 1 to 64")]
    Lane,
    /// The document is at fault; this is never `TextFault::Memory`.
    #[error("{0}")]
    Text(TextFault),
    /// The script has too many bytes, or this is the line of one command too many.
    #[error("the script is too long")]
    Long,
}

/// The first fault of a script.
#[derive(Debug, Drop, Error)]
#[error("line {line}: {kind}")]
pub struct ScriptFault {
    /// The number of the line, from 1.
    pub line: u32,
    /// What is wrong with it.
    pub kind: ScriptKind,
}

/// Why a script was not read.
#[derive(Debug, Drop, Error)]
pub enum ScriptRead {
    /// A read from the source failed, and its count of faults rose.
    #[error("the script could not be read")]
    ReadFault,
    /// The script is at fault.
    #[error("{0}")]
    Fault(ScriptFault),
    /// There is not enough memory.
    #[error("out of memory")]
    Memory,
}
