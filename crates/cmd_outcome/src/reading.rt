use bson_doc::TopologyVersion;

/// All that a driver reads of a reply to a command.
#[derive(Clone, Copy, Debug, PartialEq, Eq, Drop)]
pub struct Reading {
    /// What the command came to.
    pub result: ReplyResult,
    /// The reply has the label RetryableWriteError, whatever its `ok` (Retryable Writes).
    pub retryable: bool,
    /// The reply has the label NoWritesPerformed (Retryable Writes).
    pub no_writes: bool,
    /// The state change that the error tells, or else the write concern error (SDAM, Error handling).
    pub state: Option<StateChange>,
    /// The server's topology version, where the reply has one that is whole (SDAM, Topology Version).
    pub version: Option<TopologyVersion>,
}

/// What a command came to, as the server says.
#[derive(Clone, Copy, Debug, PartialEq, Eq, Drop)]
pub enum ReplyResult {
    /// `ok` is one, and there are no write errors and no write concern error.
    Ok {
        /// `n`, else the `n` of `lastErrorObject`, else the length of the cursor's first batch, else 0.
        n: i64,
        /// `nModified`, else 0.
        modified: i64,
    },
    /// `ok` is one, and `writeErrors` is not empty.
    WriteErrors {
        /// How many there are; past u32's greatest number it stays there.
        count: u32,
        /// The first one's code, 0 where it has none.
        first: i32,
    },
    /// `ok` is one, there are no write errors, and there is a write concern error.
    Concern {
        /// Its code, 0 where it has none.
        code: i32,
    },
    /// `ok` is not one.
    Error {
        /// The error's code, 0 where it has none.
        code: i32,
    },
}

/// An error that tells that a server is no writable primary or is recovering (SDAM, Error handling).
#[derive(Clone, Copy, Debug, PartialEq, Eq, Drop)]
pub struct StateChange {
    /// The error's code.
    pub code: i32,
    /// The server is shutting down (SDAM, "node is shutting down").
    pub shutdown: bool,
}
