/// A connection that is pending or lent, and the ticket whose owner dials or has it (CMAP, Connection).
#[derive(Clone, Copy, Debug, PartialEq, Eq)]
pub struct Held {
    /// Connections count from 1.
    pub conn: u64,
    /// The number of the ticket.
    pub ticket: u64,
    /// The pool's generation as the connection was dialled.
    pub generation: u64,
}

/// A connection that is available (CMAP, Connection).
#[derive(Clone, Copy, Debug, PartialEq, Eq)]
pub struct Available {
    /// Connections count from 1.
    pub conn: u64,
    /// The pool's generation as the connection was dialled.
    pub generation: u64,
    /// The moment at which it was checked in.
    pub since: u64,
}
