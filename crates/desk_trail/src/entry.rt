use bson_doc::Rows;
use pool_book::CloseReason;
use write_retry::{AttemptEnd, Outcome, Unsent};

/// What happened in a client, one entry for each thing. A host, a command (`op`), a connection and a stream are known by
/// their numbers: hosts count from 0 in the order in which they are named, commands from 0 in the order in which the client
/// was given them, connections from 1 in each pool, and streams are the net's. Moments are microseconds.
#[derive(Debug, Drop)]
pub enum Entry {
    /// A host got its number: it stands in the topology from here on, with a paused pool (SDAM, Updating the
    /// TopologyDescription; CMAP, Creating a Connection Pool).
    Named {
        host: u32,
    },
    /// A host left the topology (SDAM, Updating the TopologyDescription).
    Dropped {
        host: u32,
    },
    /// The event at that place of the trail's events was offered to the topology.
    Offered {
        event: u64,
        taken: OfferedHow,
    },
    /// A paused pool was made ready (CMAP, Marking a Connection Pool as ready).
    PoolReady {
        host: u32,
    },
    /// A pool was cleared (CMAP, Clearing a Connection Pool).
    PoolClear {
        host: u32,
    },
    /// A pool was closed (CMAP, Closing a Connection Pool).
    PoolShut {
        host: u32,
    },
    /// A check of the server began on that stream (Server Monitoring, hello).
    CheckBegan {
        host: u32,
        stream: u64,
    },
    /// At a moment at or past the deadline of a command's selection, the net had no answer yet to the check that runs.
    CheckDry {
        host: u32,
    },
    /// A check of the server ended.
    CheckEnded {
        host: u32,
        how: CheckHow,
    },
    /// A command looked for a server: `a` and `b` are the words of the choice of two, `kept` the hosts that the picker kept
    /// (Server Selection).
    Looked {
        op: u32,
        a: u64,
        b: u64,
        kept: Rows<u32>,
        picked: LookedHow,
    },
    /// A command asked the host's pool for a connection, by a ticket (CMAP, ConnectionCheckOutStartedEvent).
    Entered {
        op: u32,
        host: u32,
        ticket: u64,
    },
    /// A connection was checked out (CMAP, ConnectionCheckedOutEvent).
    Lent {
        op: u32,
        host: u32,
        conn: u64,
    },
    /// A command began a new connection; `stream` is None where the dial failed (CMAP, ConnectionCreatedEvent).
    Dialled {
        op: u32,
        host: u32,
        conn: u64,
        stream: Option<u64>,
    },
    /// The greeting of a command's new connection was answered and not refused; `stale` where the pool was cleared or closed
    /// since its dial (CMAP, Establishing a Connection).
    Settled {
        op: u32,
        host: u32,
        conn: u64,
        stale: bool,
    },
    /// A command got no connection (CMAP, ConnectionCheckOutFailedEvent).
    NotLent {
        op: u32,
        host: u32,
        why: Unsent,
    },
    /// A connection came back to its pool; `errored` where it failed (CMAP, ConnectionCheckedInEvent).
    CheckedIn {
        op: u32,
        host: u32,
        conn: u64,
        errored: bool,
    },
    /// A connection was closed (CMAP, ConnectionClosedEvent).
    ConnShut {
        host: u32,
        conn: u64,
        reason: CloseReason,
    },
    /// A command leased the session at that place of the trail's sessions; `fresh` where it was made for it (Driver
    /// Sessions, Algorithm to acquire a ServerSession instance).
    Leased {
        op: u32,
        session: u64,
        fresh: bool,
    },
    /// A command drew a transaction number from its session (Retryable Writes, Generating Transaction Identifiers).
    Drew {
        op: u32,
        number: i64,
    },
    /// A command gave its session back (Driver Sessions, Algorithm to return a ServerSession instance to the server session
    /// pool).
    Returned {
        op: u32,
        dirty: bool,
        kept: bool,
    },
    /// The request at that place of the trail's requests was queued whole.
    Asked {
        request: u64,
    },
    /// An attempt of a command ended (Retryable Writes, Executing Retryable Write Commands).
    Ended {
        op: u32,
        end: AttemptEnd,
    },
    /// The greatest cluster time that was seen rose (Driver Sessions, Gossipping the cluster time).
    Time {
        stamp: u64,
    },
    /// A command was answered.
    Finished {
        op: u32,
        outcome: Outcome,
    },
}

/// What became of an event that was offered (SDAM, topologyVersion comparison and generation checks).
#[derive(Clone, Copy, Debug, PartialEq, Eq, Drop)]
pub enum OfferedHow {
    /// It was taken in; `differs` where the topology's description is another one by it, mean round trip times aside.
    Accepted { differs: bool },
    /// The topology does not have its host.
    Gone,
    /// Its topology version is behind the one that is kept.
    StaleVersion,
    /// It came by a connection of a generation below the pool's.
    StaleGeneration,
}

/// How a check ended (Server Monitoring, Network or command error during server check).
#[derive(Clone, Copy, Debug, PartialEq, Eq, Drop)]
pub enum CheckHow {
    /// A reply to the hello came, after this round trip.
    Reply { sample: u64 },
    /// A reply came that is an error or is no hello reply; `code` is 0 where it has none.
    Refused { code: i32 },
    /// The peer ended the stream.
    Cut,
    /// A call of the net failed.
    Fault,
    /// No whole reply came in time.
    Late,
    /// What came is no message, or answers another request; `at` is the place at fault.
    Bad { at: u32 },
    /// No stream could be made.
    NoDial,
}

/// What a look for a server came to (Server Selection).
#[derive(Clone, Copy, Debug, PartialEq, Eq, Drop)]
pub enum LookedHow {
    /// This server was chosen.
    Chosen { host: u32 },
    /// No suitable server yet, and the deadline is not reached.
    NoneFits,
    /// No suitable server, at or past the deadline.
    Failed,
    /// This server speaks no wire version of this client.
    Incompatible { host: u32 },
}
