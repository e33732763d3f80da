ghost use Rattle.std.specs.Prelude.{◌<◌, length, IfSome};

use crate::Memory;
use std::alloc::Global;

/// The row of a connection that is gone, or of which none is known: past every row.
const NONE: usize = usize::MAX;

/// A connection and the row at which it was put last.
#[derive(Clone, Copy, Debug)]
struct LastRow {
    conn: u64,
    row: usize,
}

/// The row at which each connection was put last, in the order of their numbers, found by halves.
///
/// It is advice to [`HeldList`](crate::held_list::HeldList), which looks whether the connection stands there, and else goes
/// through all of its rows: what it says changes how long a call takes and no answer, and so no contract speaks of it.
#[derive(Debug, Drop)]
pub(crate) struct LastRows {
    rows: Vec<LastRow>,
}

impl LastRows {
    pub(crate) fn new(alloc: Global) -> LastRows {
        LastRows {
            rows: Vec::new(alloc),
        }
    }

    /// Takes memory for twice as many connections: half of the rows at least are free each time that those of connections
    /// that are gone are dropped.
    pub(crate) fn reserve_for(&mut self, places: usize) -> Result<(), Memory> {
        let all = places.saturating_add(places);
        self.rows.reserve(all.saturating_sub(self.rows.len()))
    }

    /// The row at which the connection was put last.
    pub(crate) fn row_of(&self, conn: u64) -> usize {
        match self.place_of(conn) {
            Some(place) => self.rows[place].row,
            None => NONE,
        }
    }

    /// The connection was put at this row.
    pub(crate) fn note(&mut self, conn: u64, row: usize) {
        if let Some(place) = self.place_of(conn) {
            self.rows[place].row = row;
            return;
        }
        if self.rows.len() == self.rows.capacity() {
            self.rows.retain(|r| r.row != NONE);
        }
        if self.rows.len() < self.rows.capacity() {
            self.rows.push_reserved(LastRow { conn, row });
        }
    }

    /// The connection is gone.
    pub(crate) fn forget(&mut self, conn: u64) {
        if let Some(place) = self.place_of(conn) {
            self.rows[place].row = NONE;
        }
    }

    /// The place of a connection among the rows.
    fn place_of(&self, conn: u64) -> Option<usize>
        ensures { IfSome result (λ place. place < length self.now.rows.items) }
    {
        self.rows
            .as_slice()
            .binary_search_by_key(&conn, |r| r.conn)
            .ok()
    }
}
