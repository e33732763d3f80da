//! Which requests are of which command.
ghost use Rattle.std.specs.Prelude.{◌≡◌, ◌≢◌, ◌≤◌, ◌<◌, ◌+◌, ◌^◌, ◌++◌, ◌∷◌, ℕ, List, None, Some, [], IfOk, OnOk, length, slice_get};
ghost use Rattle.entry_judge.specs.declared.timed.Timed.{Timed};
ghost use Rattle.desk_trail.specs.declared.request.Request.{Request as TrailRequest};
ghost use Rattle.desk_trail.specs.Clients.{Client};
ghost use Rattle.desk_trail.specs.Facts.{Fact, facts_of};
ghost use Rattle.desk_trail.specs.Legal.{AreLegal};
ghost use Rattle.desk_trail.specs.Written.{lists_of};
ghost use Rattle.effect_count.specs.Counts.{IsIndexOf, effects_by, op_of, row_of};
ghost use Rattle.effect_count.specs.Inside.{AreCounts, CountsOne, HasRequests, asked_by, command_at, with_asked};

use bson_doc::{Memory, Rows};
use desk_trail::{Entry, Purpose, Request, Step, Trail};
use member_core::LogEntry;
use std::alloc::Global;
use std::collections::BTreeMap;
use std::marker::Model;

/// Of which command each request of each stream is. A contract sees it as the streams by their numbers, each with the commands of its
/// requests, in order.
#[derive(Drop)]
pub struct RequestIndex {
    rows: BTreeMap<u64, Rows<Option<u32>>>,
}

impl Model for RequestIndex {
    ghost use Rattle.std.specs.Prelude.{ℕ, List, Option};

    ghost Value = { List (ℕ × List (Option ℕ)) };

    ghost view = { λ index. index.rows.entries };
}

/// The command of which a request is an attempt; None of a hello and of a farewell.
fn op_of(purpose: Purpose) -> Option<u32>
    ensures { result ≡ op_of purpose }
{
    match purpose {
        Purpose::Command { op } => Some(op),
        Purpose::Check { .. } | Purpose::Greeting { .. } | Purpose::Farewell => None,
    }
}

/// So many counts, each 0.
fn no_counts(alloc: Global, count: usize) -> Result<Vec<u64>, Memory>
    ensures count { IfOk result (λ counts. length counts.items ≡ count) }
    ensures zero { IfOk result (λ counts. (k n : ℕ) → slice_get counts.items k ≡ Some n → n ≡ 0) }
{
    let mut counts = Vec::new(alloc);
    'making: for _ in 0..count {
        counts.push(0)?;
    }
    Ok(counts)
}

/// The command took effect once more, where it is one of those that are counted.
fn count_one(counts: &mut Vec<u64>, op: u32)
    requires room { (k n : ℕ) → slice_get counts.old.items k ≡ Some n → n + 1 < 2 ^ 64 }
    ensures { CountsOne op counts.old.items counts.new.items }
{
    let place = op as usize;
    if place < counts.len() {
        counts[place] += 1;
    }
}

impl RequestIndex {
    /// An index of a trail without requests. It takes no memory.
    fn new(alloc: Global) -> RequestIndex
        ensures { result ≡ [] }
    {
        RequestIndex {
            rows: BTreeMap::new(alloc),
        }
    }

    /// Of which command each request of a trail is, in one pass over its entries. An entry that names a place at which nothing
    /// stands asks for nothing. The time is linear in the length of the trail, but for the logarithm of how many streams there are.
    ///
    /// # Errors
    ///
    /// [`Memory`] where memory is wanting, and in no other case.
    pub fn of(alloc: Global, trail: &Trail) -> Result<RequestIndex, Memory>
        ensures { IfOk result (λ index. IsIndexOf index (facts_of (lists_of trail.now) trail.now.steps)) }
    {
        let mut index = RequestIndex::new(alloc);
        let requests = trail.requests.as_slice();
        'noting: for step in trail.steps.as_slice() {
            index.note(alloc, requests, step)?;
        }
        Ok(index)
    }

    /// Takes in one entry.
    fn note(&mut self, alloc: Global, requests: &[Request], step: &Step) -> Result<(), Memory>
        ensures { OnOk result ((before : List TrailRequest) → HasRequests self.old before
            → HasRequests self.new (with_asked before (asked_by requests.now step.now.entry))) }
    {
        let Entry::Asked { request } = &step.entry else {
            return Ok(());
        };
        match requests.get(*request as usize) {
            Some(asked) => self.add(alloc, asked.stream, op_of(asked.purpose)),
            None => Ok(()),
        }
    }

    /// One more request on a stream.
    fn add(&mut self, alloc: Global, stream: u64, op: Option<u32>) -> Result<(), Memory>
        ensures own { OnOk result (row_of self.new stream ≡ row_of self.old stream ++ op ∷ []) }
        ensures others { OnOk result ((other : ℕ) → other ≢ stream → row_of self.new other ≡ row_of self.old other) }
    {
        match self.rows.get_mut(&stream) {
            Some(row) => row.push(op),
            None => self.begin(alloc, stream, op),
        }
    }

    /// The first request on a stream.
    fn begin(&mut self, alloc: Global, stream: u64, op: Option<u32>) -> Result<(), Memory>
        requires { row_of self.old stream ≡ [] }
        ensures own { OnOk result (row_of self.new stream ≡ op ∷ []) }
        ensures others { OnOk result ((other : ℕ) → other ≢ stream → row_of self.new other ≡ row_of self.old other) }
    {
        let mut row = Rows::new(alloc);
        row.push(op)?;
        match self.rows.insert(stream, row) {
            Ok(_) => Ok(()),
            Err(failed) => Err(failed.into()),
        }
    }

    /// The command of the request of that number on a stream, counted from 0; None where there is no such request, and of one that is
    /// no command's.
    fn command_at(&self, stream: u64, nth: u64) -> Option<u32>
        ensures { result ≡ command_at self.now stream nth }
    {
        let row = self.rows.get(&stream)?;
        *row.as_slice().get(nth as usize)?
    }

    /// How often each of the first so many commands took effect, by a log: how many of its entries name a request of it. Each count
    /// is exact. Against the trail that the index is of, where that is legal, these are the effects of the client's commands.
    ///
    /// # Errors
    ///
    /// [`Memory`] where memory is wanting, and in no other case.
    pub fn effects(&self, alloc: Global, log: &[LogEntry], count: usize) -> Result<Vec<u64>, Memory>
        ensures count { IfOk result (λ counts. length counts.items ≡ count) }
        ensures each { IfOk result (λ counts. (client : Client) (facts : List (Timed Fact)) → AreLegal client facts → IsIndexOf self.now facts
            → length client.commands ≡ count → counts.items ≡ effects_by client facts log.now) }
    {
        let counts = self.counts(alloc, log, count)?;
        crate::laws::the_requests_of_a_stream_are_those_asked_on_it();
        Ok(counts)
    }

    /// How many of a log's entries name a request of each of so many commands.
    fn counts(&self, alloc: Global, log: &[LogEntry], count: usize) -> Result<Vec<u64>, Memory>
        ensures count { IfOk result (λ counts. length counts.items ≡ count) }
        ensures each { IfOk result (λ counts. AreCounts self.now log.now counts.items) }
    {
        let mut counts = no_counts(alloc, count)?;
        'counting: for entry in log {
            self.count_entry(&mut counts, entry);
        }
        Ok(counts)
    }

    /// Counts one entry of a log.
    fn count_entry(&self, counts: &mut Vec<u64>, entry: &LogEntry)
        requires room { (k n : ℕ) → slice_get counts.old.items k ≡ Some n → n + 1 < 2 ^ 64 }
        ensures none { command_at self.now entry.now.stream entry.now.nth ≡ None → counts.new.items ≡ counts.old.items }
        ensures one { (op : ℕ) → command_at self.now entry.now.stream entry.now.nth ≡ Some op → CountsOne op counts.old.items counts.new.items }
    {
        if let Some(op) = self.command_at(entry.stream, entry.nth) {
            count_one(counts, op);
        }
    }
}
