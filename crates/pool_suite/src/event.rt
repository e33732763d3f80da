use pool_book::CloseReason;

/// An event of a pool (CMAP, Events).
#[derive(Clone, Copy)]
pub struct Event {
    /// The event's name.
    pub kind: &'static str,
    /// The connection that it is about.
    pub conn: Option<u64>,
    /// Why it came.
    pub reason: Option<&'static str>,
}

impl Event {
    /// The event of the pool.
    pub fn of_pool(kind: &'static str) -> Event {
        Event {
            kind,
            conn: None,
            reason: None,
        }
    }

    /// The event of a connection.
    pub fn of_conn(kind: &'static str, conn: u64) -> Event {
        Event {
            kind,
            conn: Some(conn),
            reason: None,
        }
    }

    /// A connection was closed.
    pub fn closed(conn: u64, reason: CloseReason) -> Event {
        Event {
            kind: "ConnectionClosed",
            conn: Some(conn),
            reason: Some(close_reason(reason)),
        }
    }

    /// A check-out failed.
    pub fn failed(reason: &'static str) -> Event {
        Event {
            kind: "ConnectionCheckOutFailed",
            conn: None,
            reason: Some(reason),
        }
    }
}

/// The standard's word for a reason (CMAP, ConnectionClosedEvent).
fn close_reason(reason: CloseReason) -> &'static str {
    match reason {
        CloseReason::Stale => "stale",
        CloseReason::Idle => "idle",
        CloseReason::Errored => "error",
        CloseReason::PoolClosed => "poolClosed",
    }
}
