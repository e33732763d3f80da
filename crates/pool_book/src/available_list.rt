ghost use Rattle.std.specs.Prelude.{◌≡◌, ℕ, ◌+◌, ◌-◌, ◌<◌, ◌≤◌, ◌||◌, not, ◌==◌, [], ◌∷◌, ◌++◌, Some, All, filter, find, length, take, slice_get, OnOk, IsTrue};
ghost use Rattle.pool_book.specs.Pool.{is_stale, is_idle, last_of, without_available};

use crate::rules::is_stale;
use crate::{Available, Memory, PoolRules};
use std::alloc::Global;
use std::marker::Model;

/// The connections that are available, in the order in which they were checked in, with room that is taken beforehand.
///
/// Beside them stands what is known of all of them, so that mostly no walk is needed to see that none has perished.
#[derive(Debug, Drop)]
pub(crate) struct AvailableList {
    items: Vec<Available>,
    /// None of them is available since an earlier moment.
    earliest: u64,
    /// The generation of all of them, where it is known that they are of one.
    generation: Option<u64>,
}

impl Model for AvailableList {
    ghost use Rattle.std.specs.Prelude.{vec_capacity};
    ghost use Rattle.pool_book.specs.Parts.{RoomyAvailable, KnowsAvailable};

    ghost Value = { RoomyAvailable };

    ghost view = { λ l. record { items = l.items.items; room = vec_capacity l.items } };

    ghost invariant = { λ l. KnowsAvailable l.items.items l.earliest l.generation };
}

impl AvailableList {
    pub(crate) fn new(alloc: Global) -> AvailableList
        ensures { result.items ≡ [] }
    {
        AvailableList {
            items: Vec::new(alloc),
            earliest: u64::MAX,
            generation: None,
        }
    }

    pub(crate) fn len(&self) -> usize
        ensures { result ≡ length self.now.items }
    {
        self.items.len()
    }

    pub(crate) fn as_slice(&self) -> &[Available]
        ensures { result.now ≡ self.now.items }
    {
        self.items.as_slice()
    }

    /// Takes memory for this many items in all.
    pub(crate) fn reserve_for(&mut self, places: usize) -> Result<(), Memory>
        ensures items { self.new.items ≡ self.old.items }
        ensures room { OnOk result (places ≤ self.new.room) }
        ensures grows { self.old.room ≤ self.new.room }
    {
        self.items.reserve(places.saturating_sub(self.items.len()))
    }

    pub(crate) fn last(&self) -> Option<Available>
        ensures { result ≡ last_of self.now.items }
    {
        self.items.last().copied()
    }

    pub(crate) fn put(&mut self, available: Available)
        requires { length self.old.items < self.old.room }
        ensures items { self.new.items ≡ self.old.items ++ available ∷ [] }
        ensures room { self.new.room ≡ self.old.room }
    {
        self.generation = joined(self.generation, available.generation);
        self.earliest = self.earliest.min(available.since);
        self.items.push_reserved(available);
    }

    /// Takes the last one out.
    pub(crate) fn pop(&mut self) -> Option<Available>
        ensures last { result ≡ last_of self.old.items }
        ensures items { self.new.items ≡ take (length self.old.items - 1) self.old.items }
        ensures room { self.new.room ≡ self.old.room }
    {
        self.items.pop()
    }

    /// Takes the connection of this number out.
    pub(crate) fn remove(&mut self, conn: u64)
        ensures items { self.new.items ≡ without_available conn self.old.items }
        ensures bound { length self.new.items ≤ length self.old.items }
        ensures room { self.new.room ≡ self.old.room }
    {
        self.items.retain(|a| a.conn != conn);
    }

    pub(crate) fn clear(&mut self)
        ensures items { self.new.items ≡ [] }
        ensures room { self.new.room ≡ self.old.room }
    {
        self.items.clear();
    }

    /// The first that has perished at the moment. Where none has, that is mostly known without a walk, and else from
    /// then on.
    pub(crate) fn first_perished(
        &mut self,
        rules: PoolRules,
        generation: u64,
        moment: u64,
    ) -> Option<Available>
        ensures found { result ≡ find (λ a. is_stale generation a.generation || is_idle rules a.since moment) self.old.items }
        ensures same { self.new ≡ self.old }
    {
        if is_of(self.generation, generation) && !rules.is_idle(self.earliest, moment) {
            return None;
        }
        let first = self.items.iter().copied().find(|a| is_stale(generation, a.generation)
            || rules.is_idle(a.since, moment));
        if first.is_none() {
            self.generation = Some(generation);
            self.earliest = earliest(self.items.as_slice());
        }
        first
    }
}

/// Whether connections are known to be of this generation.
fn is_of(known: Option<u64>, generation: u64) -> bool
    ensures { IsTrue result → known ≡ Some generation }
{
    match known {
        Some(known) => known == generation,
        None => false,
    }
}

/// The generation of connections that are of a known one, with one more.
fn joined(known: Option<u64>, generation: u64) -> Option<u64>
    ensures { (g : ℕ) → result ≡ Some g → (known ≡ Some g) × (generation ≡ g) }
{
    if is_of(known, generation) {
        known
    } else {
        None
    }
}

/// The earliest moment since which any of them is available; the last of all moments where there are none.
fn earliest(items: &[Available]) -> u64
    ensures { All (λ a. result ≤ a.since) items.now }
{
    let mut earliest = u64::MAX;
    for available in items {
        earliest = earliest.min(available.since);
    }
    earliest
}
