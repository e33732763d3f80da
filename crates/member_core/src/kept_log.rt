//! The log that a member keeps, with an index of its keys: what is asked of a key costs the same however long the log is.
ghost use Rattle.std.specs.Prelude.{◌≡◌, ◌==◌, ◌≤◌, ◌<◌, ◌+◌, ◌++◌, ◌∷◌, [], true, IfOk, OnOk, OnErr, length, map, position, slice_get, slice_set, take};
ghost use Rattle.std.specs.List.{zip};
ghost use Rattle.member_core.specs.Keys.{same_key};
ghost use Rattle.member_core.specs.Logs.{times};
ghost use Rattle.member_core.specs.Members.{elected_log, entries as entries_of, gained_from, is_acked as acked_in, marked};
ghost use Rattle.member_core.specs.Places.{HasNoneTwice, marks_of};
ghost use Rattle.member_core.specs.Shares.{IsShared};

use crate::places::{place_in, put_entries, put_tail};
use crate::{Key, LogEntry, Memory};
use bson_doc::Rows;
use std::alloc::Global;
use std::collections::BTreeMap;
use std::marker::Model;

/// Entries, with a mark for each, and no key twice. To contracts it is the list of the entries with their marks.
#[derive(Drop)]
pub(crate) struct KeptLog {
    entries: Rows<LogEntry>,
    marks: Vec<bool>,
    /// The place of each entry by its key. (Keys of entries that were lost may stand here too; what an entry has is its own key.)
    places: BTreeMap<Key, usize>,
}

impl Model for KeptLog {
    ghost use Rattle.std.specs.Prelude.{List};
    ghost use Rattle.std.specs.List.{zip};
    ghost use Rattle.member_core.specs.Members.{Kept};
    ghost use Rattle.member_core.specs.Places.{IsIndexed};

    ghost Value = { List Kept };

    ghost view = { λ l. zip l.entries l.marks.items };

    ghost invariant = { IsIndexed };
}

impl KeptLog {
    /// An empty log, which takes no memory.
    pub(crate) fn new(alloc: Global) -> KeptLog
        ensures { result ≡ [] }
    {
        KeptLog {
            entries: Rows::new(alloc),
            marks: Vec::new(alloc),
            places: BTreeMap::new(alloc),
        }
    }

    /// How many entries it has.
    pub(crate) fn len(&self) -> usize
        ensures { result ≡ length self.now }
    {
        self.entries.len()
    }

    /// The entries, in order.
    pub(crate) fn entries(&self) -> &Rows<LogEntry>
        ensures value { result.now ≡ entries_of self.now }
        ensures once { HasNoneTwice (entries_of self.now) }
    {
        &self.entries
    }

    /// Their marks.
    fn marks(&self) -> &[bool]
        ensures { result.now ≡ marks_of self.now }
    {
        self.marks.as_slice()
    }

    /// The entry at a place, with its mark.
    fn at(&self, place: usize) -> Option<(LogEntry, bool)>
        ensures { result ≡ slice_get self.now place }
    {
        if place >= self.entries.len() {
            return None;
        }
        Some((self.entries.as_slice()[place], self.marks.as_slice()[place]))
    }

    /// The place of the key's entry.
    fn place_of(&self, key: &Key) -> Option<usize>
        ensures place { result ≡ position (λ entry. same_key entry.key key.now) (entries_of self.now) }
        ensures once { HasNoneTwice (entries_of self.now) }
    {
        place_in(&self.places, self.entries.as_slice(), key)
    }

    /// Whether no entry has the key.
    pub(crate) fn lacks(&self, key: &Key) -> bool
        ensures { result ≡ (times key.now (entries_of self.now) == 0) }
    {
        match self.place_of(key) {
            Some(_) => false,
            None => true,
        }
    }

    /// Whether an entry of the key is marked.
    pub(crate) fn is_acked(&self, key: &Key) -> bool
        ensures { result ≡ acked_in self.now key.now }
    {
        match self.place_of(key) {
            Some(place) => self.marks()[place],
            None => false,
        }
    }

    /// Adds an entry behind the others.
    pub(crate) fn add(&mut self, alloc: Global, entry: LogEntry, acked: bool) -> Result<(), Memory>
        requires lacks { times entry.key (entries_of self.old) ≡ 0 }
        ensures ok { OnOk result (self.new ≡ self.old ++ (entry, acked) ∷ []) }
        ensures err { OnErr result (self.new ≡ self.old) }
    {
        let from = self.entries().len();
        self.put(alloc, from, &[entry], from, &[acked])
    }

    /// Marks the key's entry, and answers how many entries at the front stayed as they were.
    pub(crate) fn mark(&mut self, key: &Key) -> usize
        ensures marked { self.new ≡ marked key.now self.old }
        ensures kept { IsShared result self.old self.new }
    {
        let count = self.entries().len();
        match self.place_of(key) {
            None => count,
            Some(place) => {
                if self.marks()[place] {
                    return count;
                }
                self.set_mark(place);
                place
            }
        }
    }

    /// Marks the entry at a place.
    fn set_mark(&mut self, place: usize)
        requires { place < length self.old }
        ensures { self.new ≡ zip (entries_of self.old) (slice_set (marks_of self.old) place true) }
    {
        self.marks[place] = true;
    }

    /// Takes what an election behind that log gives, of which so many entries at the front are known to be shared.
    pub(crate) fn gain(
        &mut self,
        alloc: Global,
        last: &KeptLog,
        shared: usize,
    ) -> Result<(), Memory>
        requires { IsShared shared self.old last.now }
        ensures ok { OnOk result (self.new ≡ elected_log (Some last.now) self.old) }
        ensures shared { OnOk result (IsShared shared self.new last.now) }
        ensures err { OnErr result (self.new ≡ self.old) }
    {
        let from = self.entries().len();
        let gains = self.gains(alloc, last, shared)?;
        let mut marks = Vec::new(alloc);
        let behind = &self.entries().as_slice()[shared..];
        last.add_marks(&mut marks, behind)?;
        last.add_marks(&mut marks, gains.as_slice())?;
        self.put(alloc, from, gains.as_slice(), shared, marks.as_slice())
    }

    /// The entries that an election behind that log gives.
    fn gains(&self, alloc: Global, last: &KeptLog, shared: usize) -> Result<Vec<LogEntry>, Memory>
        requires { IsShared shared self.now last.now }
        ensures gains { IfOk result (λ gains. gains.items ≡ gained_from last.now (entries_of self.now)) }
        ensures once { HasNoneTwice (entries_of last.now) }
    {
        let mut gains = Vec::new(alloc);
        let behind = &last.entries().as_slice()[shared..];
        for entry in behind {
            if last.is_acked(&entry.key) && self.lacks(&entry.key) {
                gains.push(*entry)?;
            }
        }
        Ok(gains)
    }

    /// Appends what it knows of each of these entries.
    fn add_marks(&self, marks: &mut Vec<bool>, entries: &[LogEntry]) -> Result<(), Memory>
        ensures { OnOk result (marks.new.items ≡ marks.old.items ++ map (λ entry. acked_in self.now entry.key) entries.now) }
    {
        for entry in entries {
            marks.push(self.is_acked(&entry.key))?;
        }
        Ok(())
    }

    /// Becomes a copy of that log, of which so many entries at the front are known to be shared.
    pub(crate) fn copy(
        &mut self,
        alloc: Global,
        other: &KeptLog,
        shared: usize,
    ) -> Result<(), Memory>
        requires { IsShared shared self.old other.now }
        ensures ok { OnOk result (self.new ≡ other.now) }
        ensures err { OnErr result (self.new ≡ self.old) }
    {
        let entries = &other.entries().as_slice()[shared..];
        let marks = &other.marks()[shared..];
        self.put(alloc, shared, entries, shared, marks)
    }

    /// The entries behind the first `from` give way to these, and the marks behind the first `known` to those.
    fn put(
        &mut self,
        alloc: Global,
        from: usize,
        entries: &[LogEntry],
        known: usize,
        marks: &[bool],
    ) -> Result<(), Memory>
        requires from { from ≤ length self.old }
        requires known { known ≤ length self.old }
        requires lengths { known + length marks.now ≡ from + length entries.now }
        requires once { HasNoneTwice (take from (entries_of self.old) ++ entries.now) }
        ensures ok { OnOk result (self.new ≡ zip (take from (entries_of self.old) ++ entries.now) (take known (marks_of self.old) ++ marks.now)) }
        ensures err { OnErr result (self.new ≡ self.old) }
    {
        self.marks.reserve(marks.len())?;
        put_entries(&mut self.entries, &mut self.places, alloc, from, entries)?;
        put_tail(&mut self.marks, known, marks);
        Ok(())
    }

    /// How many entries at the front of both logs are the same, where so many are known to be.
    pub(crate) fn shared_with(&self, other: &KeptLog, shared: usize) -> usize
        requires { IsShared shared self.now other.now }
        ensures shared { IsShared result self.now other.now }
        ensures more { shared ≤ result }
    {
        let most = self.len();
        let mut count = shared;
        while count < most && self.is_same_at(other, count) {
            count += 1;
        }
        count
    }

    /// Whether both logs have the same at a place.
    fn is_same_at(&self, other: &KeptLog, place: usize) -> bool
        requires { IsShared place self.now other.now }
        ensures { result ≡ true → IsShared (place + 1) self.now other.now }
    {
        let Some((entry, mark)) = self.at(place) else {
            return false;
        };
        match other.at(place) {
            None => false,
            Some((own, known)) => is_same(&entry, &own) && mark == known,
        }
    }
}

/// Whether the entries are the same.
fn is_same(entry: &LogEntry, other: &LogEntry) -> bool
    ensures { result ≡ true → entry.now ≡ other.now }
{
    entry.key.same(&other.key) && entry.stream == other.stream && entry.nth == other.nth
}
