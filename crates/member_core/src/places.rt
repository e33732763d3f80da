//! An index of the places at which keys stand in a log, and a log that changes behind a place.
ghost use Rattle.std.specs.Prelude.{◌≡◌, ◌≤◌, ◌<◌, ◌+◌, ◌^◌, ◌++◌, ℕ, IsOk, OnOk, OnErr, IsSome, Some, length, slice_get, take, vec_capacity, vec_len};
ghost use Rattle.std.specs.BTreeMap.{get};
ghost use Rattle.member_core.specs.Places.{HasNoneTwice, HasPlaces, key_cmp, place_by, placed};
ghost use Rattle.member_core.specs.declared.key.Key.{Key as AnyKey};
ghost use Rattle.member_core.specs.declared.log.LogEntry.{LogEntry as AnyEntry};

use crate::{Key, LogEntry, Memory};
use bson_doc::Rows;
use std::alloc::{AllocError, Global};
use std::collections::BTreeMap;
use std::mem::replace;

/// Where the key stands in the log that the index is of.
pub(crate) fn place_in(places: &BTreeMap<Key, usize>, log: &[LogEntry], key: &Key) -> Option<usize>
    ensures { result ≡ place_by places.now log.now key.now }
{
    let place = *places.get(key)?;
    let entry = log.get(place)?;
    if entry.key.same(key) {
        Some(place)
    } else {
        None
    }
}

/// The index takes in these entries, which stand in a log from a place on. Where memory is wanting it has taken in some of them.
/// A key that it has takes no memory.
fn put_places(
    places: &mut BTreeMap<Key, usize>,
    from: usize,
    entries: &[LogEntry],
) -> Result<(), Memory>
    requires fits { from + length entries.now < 2 ^ 64 }
    ensures ok { OnOk result ((key : AnyKey) → get key_cmp places.new key ≡ placed from entries.now key (get key_cmp places.old key)) }
    ensures err { OnErr result ((n : ℕ) × ((key : AnyKey) → get key_cmp places.new key ≡ placed from (take n entries.now) key (get key_cmp places.old key))) }
    ensures known { ((i : ℕ) (entry : AnyEntry) → slice_get entries.now i ≡ Some entry → IsSome (get key_cmp places.old entry.key)) → IsOk result }
{
    'putting: for index in 0..entries.len() {
        match places.insert(entries[index].key, from + index) {
            Ok(_) => {}
            Err(_) => return Err(AllocError),
        }
    }
    Ok(())
}

/// The same of entries whose keys the index has.
fn restore_places(places: &mut BTreeMap<Key, usize>, from: usize, entries: &[LogEntry])
    requires fits { from + length entries.now < 2 ^ 64 }
    requires known { (i : ℕ) (entry : AnyEntry) → slice_get entries.now i ≡ Some entry → IsSome (get key_cmp places.old entry.key) }
    ensures { (key : AnyKey) → get key_cmp places.new key ≡ placed from entries.now key (get key_cmp places.old key) }
{
    match put_places(places, from, entries) {
        Ok(()) => {}
        Err(_) => unreachable!(),
    }
}

/// The entries of a log behind the first so many give way to these, and its index follows.
pub(crate) fn put_entries(
    log: &mut Rows<LogEntry>,
    places: &mut BTreeMap<Key, usize>,
    alloc: Global,
    from: usize,
    entries: &[LogEntry],
) -> Result<(), Memory>
    requires from { from ≤ length log.old }
    requires places { HasPlaces places.old log.old }
    requires once { HasNoneTwice (take from log.old ++ entries.now) }
    ensures ok { OnOk result (log.new ≡ take from log.old ++ entries.now) }
    ensures err { OnErr result (log.new ≡ log.old) }
    ensures places { HasPlaces places.new log.new }
{
    let mut items = replace(log, Rows::new(alloc)).into_vec();
    let done = put_items(&mut items, places, from, entries);
    *log = Rows::from_vec(items);
    done
}

/// The same, of the entries as a `Vec`.
fn put_items(
    items: &mut Vec<LogEntry>,
    places: &mut BTreeMap<Key, usize>,
    from: usize,
    entries: &[LogEntry],
) -> Result<(), Memory>
    requires from { from ≤ length items.old.items }
    requires places { HasPlaces places.old items.old.items }
    requires once { HasNoneTwice (take from items.old.items ++ entries.now) }
    ensures ok { OnOk result (items.new.items ≡ take from items.old.items ++ entries.now) }
    ensures err { OnErr result (items.new.items ≡ items.old.items) }
    ensures places { HasPlaces places.new items.new.items }
{
    items.reserve(entries.len())?;
    match put_places(places, from, entries) {
        Ok(()) => {
            put_tail(items, from, entries);
            Ok(())
        }
        Err(_) => {
            restore_places(places, from, &items.as_slice()[from..]);
            Err(AllocError)
        }
    }
}

/// The items behind the first so many give way to these, for which there is room.
pub(crate) fn put_tail<T: Copy + Drop>(items: &mut Vec<T>, from: usize, tail: &[T])
    requires room { vec_len items.old + length tail.now ≤ vec_capacity items.old }
    ensures { items.new.items ≡ take from items.old.items ++ tail.now }
{
    items.truncate(from);
    match items.extend_from_slice(tail) {
        Ok(()) => {}
        Err(_) => unreachable!(),
    }
}
