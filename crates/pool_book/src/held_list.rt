ghost use Rattle.std.specs.Prelude.{◌≡◌, ◌^◌, ◌+◌, ◌<◌, ◌≤◌, [], ◌∷◌, ◌++◌, None, length, position, vec_capacity, IfSome, IfNone, OnOk, OnSome};
ghost use Rattle.pool_book.specs.Pool.{held_of, without_held};
ghost use Rattle.pool_book.specs.Parts.{IsRowOf, is_row_of, live, row_at};
ghost use Rattle.pool_book.specs.Sound.{times_held};

use crate::last_rows::LastRows;
use crate::{Held, Memory};
use std::alloc::Global;
use std::marker::Model;

/// Connections that tickets' owners dial or have, with room that is taken beforehand. They stand in rows, of which those of
/// connections that were taken out are empty until the room is used up.
#[derive(Debug, Drop)]
pub(crate) struct HeldList {
    rows: Vec<Option<Held>>,
    count: usize,
}

impl Model for HeldList {
    ghost use Rattle.std.specs.Prelude.{◌≡◌, length, vec_capacity};
    ghost use Rattle.pool_book.specs.Parts.{Roomy, live};

    ghost Value = { Roomy };

    ghost view = { λ l. record { items = live l.rows.items; room = vec_capacity l.rows } };

    ghost invariant = { λ l. l.count ≡ length (live l.rows.items) };
}

impl HeldList {
    pub(crate) fn new(alloc: Global) -> HeldList
        ensures { result.items ≡ [] }
    {
        HeldList {
            rows: Vec::new(alloc),
            count: 0,
        }
    }

    pub(crate) fn len(&self) -> usize
        ensures len { result ≡ length self.now.items }
        ensures fits { self.now.room < 2 ^ 63 }
    {
        self.count
    }

    /// Takes memory for this many items in all, and as many empty rows.
    pub(crate) fn reserve_for(&mut self, places: usize) -> Result<(), Memory>
        ensures items { self.new.items ≡ self.old.items }
        ensures room { OnOk result (places ≤ self.new.room) }
        ensures grows { self.old.room ≤ self.new.room }
    {
        let all = places.saturating_add(places);
        self.rows.reserve(all.saturating_sub(self.rows.len()))
    }

    /// Puts a connection last, and notes its row.
    pub(crate) fn put(&mut self, held: Held, last_rows: &mut LastRows)
        requires { length self.old.items < self.old.room }
        ensures items { self.new.items ≡ self.old.items ++ held ∷ [] }
        ensures room { self.new.room ≡ self.old.room }
    {
        make_room(&mut self.rows, last_rows);
        last_rows.note(held.conn, self.rows.len());
        self.rows.push_reserved(Some(held));
        self.count += 1;
    }

    /// The connection of this number, of which there is one at most. It is sought at this row first.
    pub(crate) fn find(&self, conn: u64, row: usize) -> Option<Held>
        requires { times_held conn self.now.items ≤ 1 }
        ensures { result ≡ held_of conn self.now.items }
    {
        let row = row_of(self.rows.as_slice(), conn, row)?;
        at(self.rows.as_slice(), row)
    }

    /// Takes the connection of this number out, of which there is one at most. It is sought at this row first.
    pub(crate) fn take_out(&mut self, conn: u64, row: usize) -> Option<Held>
        requires { times_held conn self.old.items ≤ 1 }
        ensures found { result ≡ held_of conn self.old.items }
        ensures items { self.new.items ≡ without_held conn self.old.items }
        ensures fewer { OnSome result (length self.new.items + 1 ≤ length self.old.items) }
        ensures room { self.new.room ≡ self.old.room }
    {
        let held = empty_row(&mut self.rows, conn, row)?;
        self.count -= 1;
        Some(held)
    }
}

/// Drops the empty rows where no room is left, and notes the rows anew.
fn make_room(rows: &mut Vec<Option<Held>>, last_rows: &mut LastRows)
    requires { length (live rows.old.items) < vec_capacity rows.old }
    ensures live { live rows.new.items ≡ live rows.old.items }
    ensures free { length rows.new.items < vec_capacity rows.new }
    ensures room { vec_capacity rows.new ≡ vec_capacity rows.old }
{
    if rows.len() == rows.capacity() {
        drop_empty(rows);
        note_all(rows.as_slice(), last_rows);
    }
}

/// Drops the empty rows.
fn drop_empty(rows: &mut Vec<Option<Held>>)
    ensures live { live rows.new.items ≡ live rows.old.items }
    ensures full { length rows.new.items ≡ length (live rows.old.items) }
    ensures room { vec_capacity rows.new ≡ vec_capacity rows.old }
{
    rows.retain(|row| row.is_some());
}

/// Notes the row of each connection.
fn note_all(rows: &[Option<Held>], last_rows: &mut LastRows) {
    for (place, row) in rows.iter().enumerate() {
        if let Some(held) = row {
            last_rows.note(held.conn, place);
        }
    }
}

/// Empties the row of the connection of this number, of which there is one at most.
fn empty_row(rows: &mut Vec<Option<Held>>, conn: u64, row: usize) -> Option<Held>
    requires { times_held conn (live rows.old.items) ≤ 1 }
    ensures found { result ≡ held_of conn (live rows.old.items) }
    ensures live { live rows.new.items ≡ without_held conn (live rows.old.items) }
    ensures fewer { OnSome result (length (live rows.new.items) + 1 ≡ length (live rows.old.items)) }
    ensures none { IfNone result (rows.new.items ≡ rows.old.items) }
    ensures room { vec_capacity rows.new ≡ vec_capacity rows.old }
{
    let row = row_of(rows.as_slice(), conn, row)?;
    let held = at(rows.as_slice(), row);
    rows[row] = None;
    held
}

/// A row at which the connection of this number stands: this row, else the first; None exactly where it stands at none.
fn row_of(rows: &[Option<Held>], conn: u64, row: usize) -> Option<usize>
    ensures some { IfSome result (IsRowOf conn rows.now) }
    ensures none { IfNone result (held_of conn (live rows.now) ≡ None) }
{
    match at(rows, row) {
        Some(held) if held.conn == conn => Some(row),
        _ => first_row(rows, conn),
    }
}

/// What stands in the row, None past the last one.
fn at(rows: &[Option<Held>], row: usize) -> Option<Held>
    ensures { result ≡ row_at rows.now row }
{
    match rows.get(row) {
        Some(row) => *row,
        None => None,
    }
}

/// The first row at which the connection of this number stands.
fn first_row(rows: &[Option<Held>], conn: u64) -> Option<usize>
    ensures { result ≡ position (is_row_of conn) rows.now }
{
    rows.iter().position(|row| is_of(row, conn))
}

/// Whether the connection of this number stands in the row.
fn is_of(row: &Option<Held>, conn: u64) -> bool
    ensures { result ≡ is_row_of conn row.now }
{
    match row {
        Some(held) => held.conn == conn,
        None => false,
    }
}
