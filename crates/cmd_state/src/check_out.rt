use pool_book::Ticket;

/// Where a command is with a server's pool (CMAP, Checking Out a Connection). A host is a server's number, a connection's number
/// is its pool's.
#[derive(Clone, Copy, Debug, PartialEq, Eq)]
pub enum CheckOut {
    /// Nowhere.
    Nothing,
    /// In its line, by a ticket.
    Waits { host: u32, ticket: Ticket },
    /// With a connection that it dialled, by the number of the ticket that it had.
    Dials { host: u32, ticket: u64, conn: u64 },
    /// With a connection that is lent to it.
    Has { host: u32, ticket: u64, conn: u64 },
}
