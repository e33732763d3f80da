use write_retry::Unsent;

/// What a command that waits for a connection got (CMAP, Checking Out a Connection). A connection's number is its pool's.
#[derive(Clone, Copy, Debug, PartialEq, Eq)]
pub enum Answer {
    /// This available connection, which is lent to it.
    Lent { conn: u64 },
    /// None: its attempt ended.
    Refused { why: Unsent },
    /// A new one, which is pending until its greeting, the request of that id, is answered.
    Dials { conn: u64, hello: i32 },
    /// None, since the net gave no stream for a new one: its attempt ended.
    Failed { conn: u64 },
    /// Nothing yet.
    Wait,
}
