use pool_book::CloseReason;

/// What a client tells its listeners, in the words of the standards: SDAM Monitoring, Events; CMAP, Events; Command
/// Monitoring, Events.
///
/// An event is plain data and has no description: `host` is the host's place in the list of names that comes with the
/// event, `conn` a connection of that host's pool, `op` a command, and `micros` a round trip in microseconds. A start and
/// its end name the same host, connection or command.
#[derive(Clone, Copy, Debug, PartialEq, Eq)]
pub enum Event {
    /// The client began to watch its topology (TopologyOpeningEvent).
    TopologyOpened,
    /// A server came into the topology (ServerOpeningEvent).
    ServerOpened {
        host: u32,
    },
    /// A server left the topology (ServerClosedEvent).
    ServerClosed {
        host: u32,
    },
    /// The topology's description changed (TopologyDescriptionChangedEvent).
    TopologyChanged,
    /// The client no longer watches its topology (TopologyClosedEvent).
    TopologyClosed,
    /// A check of a server began (ServerHeartbeatStartedEvent).
    BeatStarted {
        host: u32,
    },
    /// A check was answered, after this round trip (ServerHeartbeatSucceededEvent).
    BeatSucceeded {
        host: u32,
        micros: u64,
    },
    /// A check failed (ServerHeartbeatFailedEvent).
    BeatFailed {
        host: u32,
    },
    /// A server's pool was made (PoolCreatedEvent).
    PoolCreated {
        host: u32,
    },
    /// A paused pool became ready (PoolReadyEvent).
    PoolReady {
        host: u32,
    },
    /// A ready pool was cleared (PoolClearedEvent).
    PoolCleared {
        host: u32,
    },
    /// A pool was closed (PoolClosedEvent).
    PoolClosed {
        host: u32,
    },
    /// A connection began (ConnectionCreatedEvent).
    ConnCreated {
        host: u32,
        conn: u64,
    },
    /// A connection was established (ConnectionReadyEvent).
    ConnReady {
        host: u32,
        conn: u64,
    },
    /// A connection was closed, and why (ConnectionClosedEvent).
    ConnClosed {
        host: u32,
        conn: u64,
        reason: CloseReason,
    },
    /// A command asked a pool for a connection (ConnectionCheckOutStartedEvent).
    OutStarted {
        host: u32,
        op: u32,
    },
    /// It got none, and why (ConnectionCheckOutFailedEvent).
    OutFailed {
        host: u32,
        op: u32,
        why: OutWhy,
    },
    /// It got this connection (ConnectionCheckedOutEvent).
    CheckedOut {
        host: u32,
        conn: u64,
        op: u32,
    },
    /// It gave the connection back (ConnectionCheckedInEvent).
    CheckedIn {
        host: u32,
        conn: u64,
        op: u32,
    },
    /// A command was sent (CommandStartedEvent).
    CommandStarted {
        op: u32,
    },
    /// A reply came that says ok (CommandSucceededEvent).
    CommandSucceeded {
        op: u32,
    },
    /// A reply came that does not say ok, or none came (CommandFailedEvent).
    CommandFailed {
        op: u32,
    },
}

/// Why a command got no connection (CMAP, ConnectionCheckOutFailedEvent, reason; that a clear has a reason of its own is
/// this project's).
#[derive(Clone, Copy, Debug, PartialEq, Eq)]
pub enum OutWhy {
    /// The pool is closed.
    Closed,
    /// The pool is paused, or was cleared while the command waited.
    Cleared,
    /// The command waited as long as it may (the standard's timeout).
    Late,
    /// The connection could not be established (the standard's connectionError).
    Connection,
}
