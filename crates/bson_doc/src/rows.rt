ghost use Rattle.std.specs.Prelude.{◌≡◌, [], ◌∷◌, ◌++◌, length, IfOk, OnOk, OnErr};

use crate::Memory;
use std::alloc::Global;
use std::marker::Model;

/// A list of bytes.
pub type Bytes = Rows<u8>;

/// A `Vec` that contracts see as the list of its items.
///
/// Room that [`Rows::reserve`] takes is in no contract of this type; [`Buffer`](crate::Buffer) is the type whose room
/// a contract can rely on, and turns into `Rows` without taking memory.
#[derive(Debug, Drop)]
pub struct Rows<T> {
    items: Vec<T>,
}

impl<T> Model for Rows<T> {
    ghost use Rattle.std.specs.Prelude.{List};
    ghost use Rattle.std.specs.Coded.{coded_list};

    ghost Value = { List T };

    ghost coded = { coded_list T.code };

    ghost view = { λ r. r.items.items };
}

impl<T> Rows<T> {
    /// The empty list, which takes no memory.
    pub fn new(alloc: Global) -> Rows<T>
        ensures empty { result ≡ [] }
    {
        Rows {
            items: Vec::new(alloc),
        }
    }

    /// The items of a `Vec`, with its memory.
    pub fn from_vec(items: Vec<T>) -> Rows<T>
        ensures value { result ≡ items.items }
    {
        Rows { items }
    }

    /// The items as a `Vec`, with the same memory.
    pub fn into_vec(self) -> Vec<T>
        ensures value { result.items ≡ self }
    {
        let Rows { items } = self;
        items
    }

    /// How many items it has.
    pub fn len(&self) -> usize
        ensures count { result ≡ length self.now }
    {
        self.items.len()
    }

    /// The items, in order.
    pub fn as_slice(&self) -> &[T]
        ensures value { result.now ≡ self.now }
    {
        self.items.as_slice()
    }

    /// Takes memory for `more` further items, so that pushing them takes none.
    pub fn reserve(&mut self, more: usize) -> Result<(), Memory>
        ensures items { self.new ≡ self.old }
    {
        self.items.reserve(more)
    }
}

impl<T: Drop> Rows<T> {
    /// Appends an item.
    pub fn push(&mut self, item: T) -> Result<(), Memory>
        ensures ok { OnOk result (self.new ≡ self.old ++ item ∷ []) }
        ensures err { OnErr result (self.new ≡ self.old) }
    {
        self.items.push(item)?;
        Ok(())
    }
}

impl<T: Copy> Rows<T> {
    /// A copy of the items.
    pub fn take(alloc: Global, items: &[T]) -> Result<Rows<T>, Memory>
        ensures value { IfOk result (λ rows. rows ≡ items.now) }
    {
        let items = Vec::from_slice(alloc, items)?;
        Ok(Rows { items })
    }
}
