ghost use Rattle.std.specs.Prelude.{◌≡◌, ◌+◌, ◌<◌, ◌≤◌, [], ◌∷◌, ◌++◌, length, IfOk, IsOk, OnOk, OnErr};

use crate::{Memory, Rows};
use std::alloc::Global;
use std::marker::Model;

/// A `Vec` whose reserved room contracts see beside its items: `items` is the list of its items, and `room` is how many
/// more are sure to find room.
#[derive(Debug, Drop)]
pub struct Buffer<T> {
    held: Vec<T>,
}

impl<T> Model for Buffer<T> {
    ghost use Rattle.std.specs.Prelude.{◌-◌, length, vec_capacity};
    ghost use Rattle.bson_doc.specs.Room.{Roomy};

    ghost Value = { Roomy T };

    ghost view = { λ b. record { items = b.held.items; room = vec_capacity b.held - length b.held.items } };
}

impl<T> Buffer<T> {
    /// The empty buffer, without room; it takes no memory.
    pub fn new(alloc: Global) -> Buffer<T>
        ensures empty { result.items ≡ [] }
    {
        Buffer {
            held: Vec::new(alloc),
        }
    }

    /// The items of a list, with its memory.
    pub fn from_rows(rows: Rows<T>) -> Buffer<T>
        ensures value { result.items ≡ rows }
    {
        Buffer {
            held: rows.into_vec(),
        }
    }

    /// The items as a list, with the same memory.
    pub fn into_rows(self) -> Rows<T>
        ensures value { result ≡ self.items }
    {
        let Buffer { held } = self;
        Rows::from_vec(held)
    }

    /// How many items it has.
    pub fn len(&self) -> usize
        ensures count { result ≡ length self.now.items }
    {
        self.held.len()
    }

    /// The items, in order.
    pub fn as_slice(&self) -> &[T]
        ensures value { result.now ≡ self.now.items }
    {
        self.held.as_slice()
    }

    /// Takes memory for `more` further items. After its Ok the next `more` calls of [`Buffer::put`] are allowed.
    pub fn reserve(&mut self, more: usize) -> Result<(), Memory>
        ensures items { self.new.items ≡ self.old.items }
        ensures room { OnOk result (more ≤ self.new.room) }
        ensures kept { self.old.room ≤ self.new.room }
    {
        self.held.reserve(more)
    }

    /// Appends an item within the room.
    pub fn put(&mut self, item: T)
        requires { 0 < self.old.room }
        ensures items { self.new.items ≡ self.old.items ++ item ∷ [] }
        ensures room { self.old.room ≡ self.new.room + 1 }
    {
        self.held.push_reserved(item);
    }
}

impl<T: Drop> Buffer<T> {
    /// Appends an item; it takes memory only where there is no room.
    pub fn push(&mut self, item: T) -> Result<(), Memory>
        ensures ok { OnOk result (self.new.items ≡ self.old.items ++ item ∷ []) }
        ensures err { OnErr result (self.new.items ≡ self.old.items) }
        ensures succeeds { 0 < self.old.room → IsOk result }
        ensures room { self.old.room ≤ self.new.room + 1 }
    {
        self.held.push(item)?;
        Ok(())
    }
}

impl<T: Copy> Buffer<T> {
    /// Appends items within the room.
    pub fn put_all(&mut self, items: &[T])
        requires { length items.now ≤ self.old.room }
        ensures items { self.new.items ≡ self.old.items ++ items.now }
        ensures room { self.old.room ≤ self.new.room + length items.now }
    {
        let Ok(()) = self.held.extend_from_slice(items) else {
            unreachable!()
        };
    }
}
