ghost use Rattle.std.specs.Prelude.{◌<◌, ◌≤◌, length};
ghost use Rattle.net_link.specs.Calls.{TakesWithin, GotWithin};

use case_files::Memory;
use net_link::{Came, Wrote};
use std::alloc::Global;

/// What one write on a stream does. A write that was told nothing takes all.
#[derive(Clone, Copy, Drop)]
pub enum Taking {
    /// It takes nothing: the out-buffer is full.
    Full,
    /// It takes so many bytes at most, and one at least.
    Some(usize),
    /// It fails.
    Fault,
    /// It has no memory.
    Starved,
}

/// What comes on a stream, to one read or to several. A read that was told nothing has nothing yet.
#[derive(Drop)]
pub enum Coming {
    /// Bytes, of which so many were read.
    Bytes(Vec<u8>, usize),
    /// One read has nothing yet.
    Pause,
    /// The peer ended the stream: each read from here on.
    End,
    /// One read fails.
    Fault,
    /// One read has no memory.
    Starved,
}

/// One stream: what its peer was told and did not do yet, how many bytes it took, and whether it was dialled and closed.
#[derive(Drop)]
pub struct Stream {
    pub takings: Vec<Taking>,
    pub comings: Vec<Coming>,
    pub taken: usize,
    pub dialled: bool,
    pub closed: bool,
}

impl Stream {
    /// A stream of which nothing was told. It takes no memory.
    pub fn new(alloc: Global) -> Stream {
        Stream {
            takings: Vec::new(alloc),
            comings: Vec::new(alloc),
            taken: 0,
            dialled: false,
            closed: false,
        }
    }

    /// Has bytes come, in pieces of that size with a pause behind each, or in one piece where there is no size.
    pub fn come(
        &mut self,
        alloc: Global,
        bytes: &[u8],
        piece: Option<usize>,
    ) -> Result<(), Memory> {
        let Some(size) = piece else {
            let whole = Vec::from_slice(alloc, bytes)?;
            return Ok(self.comings.push(Coming::Bytes(whole, 0))?);
        };
        for part in bytes.chunks(size.max(1)) {
            let part = Vec::from_slice(alloc, part)?;
            self.comings.push(Coming::Bytes(part, 0))?;
            self.comings.push(Coming::Pause)?;
        }
        Ok(())
    }

    /// A write of bytes.
    pub fn take(&mut self, bytes: &[u8]) -> Wrote
        requires { 0 < length bytes.now }
        ensures { TakesWithin bytes.now result }
    {
        let most = match self.next_taking() {
            None => bytes.len(),
            Some(Taking::Some(most)) => most.max(1).min(bytes.len()),
            Some(Taking::Full) => return Wrote::NotYet,
            Some(Taking::Fault) => return Wrote::Failed,
            Some(Taking::Starved) => return Wrote::Memory,
        };
        self.taken = self.taken.saturating_add(most);
        Wrote::Took(most)
    }

    fn next_taking(&mut self) -> Option<Taking> {
        if self.takings.is_empty() {
            return None;
        }
        Some(self.takings.remove(0))
    }

    /// A read into a piece.
    pub fn give(&mut self, into: &mut [u8]) -> Came
        requires { 0 < length into.old }
        ensures { GotWithin into.new result }
    {
        let Some(coming) = self.comings.first_mut() else {
            return Came::NotYet;
        };
        let (came, done) = given(coming, into);
        if done {
            self.comings.remove(0);
        }
        came
    }
}

/// What a read has of what comes, and whether that is all of it.
fn given(coming: &mut Coming, into: &mut [u8]) -> (Came, bool)
    requires { 0 < length into.old }
    ensures { GotWithin into.new result.0 }
{
    match coming {
        Coming::Bytes(bytes, read) => {
            let count = copied(bytes, *read, into);
            *read = read.saturating_add(count);
            let done = *read >= bytes.len();
            if count == 0 {
                (Came::NotYet, done)
            } else {
                (Came::Got(count), done)
            }
        }
        Coming::Pause => (Came::NotYet, true),
        Coming::End => (Came::End, false),
        Coming::Fault => (Came::Failed, true),
        Coming::Starved => (Came::Memory, true),
    }
}

/// Copies bytes from a place on to the front of a piece, as many as both have, and answers how many that were.
fn copied(bytes: &[u8], from: usize, into: &mut [u8]) -> usize
    ensures { result ≤ length into.new }
{
    let Some(left) = bytes.get(from..) else {
        return 0;
    };
    let count = left.len().min(into.len());
    into[..count].copy_from_slice(&left[..count]);
    count
}
