//! Calls of a pool that may be made of some pools alone.
use crate::pools::state::Told;
use case_files::CaseFault;
use pool_book::{Fate, PoolBook, Settled, Swept, Take, Ticket};

pub fn clear(book: &mut PoolBook) -> Result<Told, CaseFault> {
    if book.generation() == u64::MAX {
        return Err(CaseFault::Refused("the last generation"));
    }
    book.clear();
    Ok(Told::Done)
}

pub fn enter(book: &mut PoolBook, moment: u64) -> Result<Told, CaseFault> {
    if book.entered() == u64::MAX {
        return Err(CaseFault::Refused("the last ticket"));
    }
    Ok(Told::Entered(book.enter(moment)?))
}

pub fn sweep(book: &mut PoolBook, moment: u64) -> Told {
    match book.sweep(moment) {
        Some(Swept { conn, reason }) => Told::Swept(conn, reason),
        None => Told::Nothing,
    }
}

/// What a ticket gets. It waits behind the call exactly where it gets nothing yet.
pub fn take(book: &mut PoolBook, ticket: &Ticket, moment: u64) -> Result<Told, CaseFault> {
    if !book.is_waiting(ticket) {
        return Err(CaseFault::Refused("the ticket does not wait"));
    }
    let None = book.sweep(moment) else {
        return Err(CaseFault::Refused("a connection is to be swept first"));
    };
    let take = book.try_take(ticket, moment);
    if book.is_waiting(ticket) != (take == Take::Wait) {
        return Err(CaseFault::Refused("the ticket waits otherwise"));
    }
    Ok(match take {
        Take::Lent { conn } => Told::Lent(conn),
        Take::Dial { conn } => Told::Dial(conn),
        Take::Wait => Told::Wait,
        Take::Cleared { generation } => Told::Cleared(generation),
        Take::Closed => Told::Closed,
        Take::Late => Told::Late,
    })
}

pub fn established(book: &mut PoolBook, conn: u64) -> Result<Told, CaseFault> {
    if !book.is_pending(conn) {
        return Err(CaseFault::Refused("the connection is not pending"));
    }
    Ok(match book.established(conn) {
        Settled::Lent => Told::Established,
        Settled::Stale { generation } => Told::Stale(generation),
    })
}

pub fn lost(book: &mut PoolBook, conn: u64) -> Result<Told, CaseFault> {
    if !book.is_pending(conn) {
        return Err(CaseFault::Refused("the connection is not pending"));
    }
    book.lost(conn);
    if book.is_pending(conn) {
        return Err(CaseFault::Refused("the connection is still pending"));
    }
    Ok(Told::Done)
}

pub fn check_in(
    book: &mut PoolBook,
    conn: u64,
    moment: u64,
    errored: bool,
) -> Result<Told, CaseFault> {
    if !book.is_lent(conn) {
        return Err(CaseFault::Refused("the connection is not lent"));
    }
    let fate = book.check_in(conn, moment, errored);
    if book.is_lent(conn) {
        return Err(CaseFault::Refused("the connection is still lent"));
    }
    Ok(match fate {
        Fate::Kept => Told::Kept,
        Fate::Shut(reason) => Told::Shut(reason),
    })
}
