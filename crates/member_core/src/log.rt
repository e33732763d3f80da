use crate::Key;

/// A write in a member's log.
#[derive(Clone, Copy, Debug, Drop)]
pub struct LogEntry {
    /// What the write is known by.
    pub key: Key,
    /// The stream of the request that it came by.
    pub stream: u64,
    /// Which request of the stream, counted from 0.
    pub nth: u64,
}
