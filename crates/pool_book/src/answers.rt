/// Why a connection is shut (CMAP, ConnectionClosedEvent). Where several hold, the first in the order `Errored`,
/// `PoolClosed`, `Stale`, `Idle` counts.
#[derive(Clone, Copy, Debug, PartialEq, Eq)]
pub enum CloseReason {
    /// The pool was cleared since the connection was dialled.
    Stale,
    /// The connection was available for longer than the rules allow.
    Idle,
    /// The connection failed.
    Errored,
    /// The pool is closed.
    PoolClosed,
}

/// What a ticket gets (CMAP, Checking Out a Connection).
#[derive(Clone, Copy, Debug, PartialEq, Eq)]
pub enum Take {
    /// This available connection, which the ticket's owner now has.
    Lent { conn: u64 },
    /// Leave to dial this connection, which is pending from now on.
    Dial { conn: u64 },
    /// Nothing yet.
    Wait,
    /// Nothing: the pool is paused, or was cleared since the ticket entered. `generation` is the pool's.
    Cleared { generation: u64 },
    /// Nothing: the pool is closed.
    Closed,
    /// Nothing: the ticket has waited as long as the rules allow.
    Late,
}

/// What becomes of a pending connection that was established (CMAP, Establishing a Connection).
#[derive(Clone, Copy, Debug, PartialEq, Eq)]
pub enum Settled {
    /// The ticket's owner who dialled it now has it.
    Lent,
    /// It is gone: the pool was cleared since it was dialled, or is closed. `generation` is the pool's as it is now, and
    /// not the connection's.
    Stale { generation: u64 },
}

/// What becomes of a connection that is checked in (CMAP, Checking In a Connection).
#[derive(Clone, Copy, Debug, PartialEq, Eq)]
pub enum Fate {
    /// It is available.
    Kept,
    /// It is gone.
    Shut(CloseReason),
}

/// A perished connection that was taken out of the available ones.
#[derive(Clone, Copy, Debug, PartialEq, Eq)]
pub struct Swept {
    /// The connection.
    pub conn: u64,
    /// `Stale` or `Idle`.
    pub reason: CloseReason,
}
