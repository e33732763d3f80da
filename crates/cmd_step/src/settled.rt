use write_retry::Unsent;

/// A connection that a command dialled, and whose greeting was answered.
#[derive(Clone, Copy, Debug, PartialEq, Eq)]
pub struct Greeted {
    /// The connection, by its number in its pool.
    pub conn: u64,
    /// Its stream.
    pub stream: u64,
    /// The stamp of the answer's cluster time, where that exceeds the greatest that was seen.
    pub news: Option<u64>,
}

/// What became of it (CMAP, Establishing a Connection).
#[derive(Clone, Copy, Debug, PartialEq, Eq)]
pub enum Settling {
    /// It is lent to the command.
    Lent,
    /// It is shut, since its pool was closed or cleared while it was dialled, and the command's attempt ended.
    Refused { why: Unsent },
}
