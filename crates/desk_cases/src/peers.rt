ghost use Rattle.std.specs.Prelude.{◌<◌, length};
ghost use Rattle.net_link.specs.Calls.{TakesWithin, GotWithin};

use crate::stream::{Coming, Stream, Taking};
use case_files::{CaseFault, Memory};
use net_link::{Came, Wrote};
use std::alloc::Global;

/// From this number on streams cannot be spoken of.
const MOST_STREAMS: u64 = 1_000;

/// A stream cannot be spoken of.
const NO_STREAM: CaseFault = CaseFault::Refused("no such stream");

/// What a dial comes to. One that was told nothing opens a stream.
#[derive(Clone, Copy, Debug, PartialEq, Eq, Drop)]
pub enum DialPlan {
    /// It opens a stream.
    Opens,
    /// It is refused.
    Refused,
    /// It has no memory.
    Starved,
}

/// What the next dial of an address comes to.
#[derive(Drop)]
struct Dial {
    address: String,
    plan: DialPlan,
}

/// The peers of a net: what they were told to do, and what they saw.
#[derive(Drop)]
pub struct Peers {
    dials: Vec<Dial>,
    streams: Vec<Stream>,
    alloc: Global,
}

impl Peers {
    /// Peers that were told nothing.
    pub fn new(alloc: Global) -> Peers {
        Peers {
            dials: Vec::new(alloc),
            streams: Vec::new(alloc),
            alloc,
        }
    }

    /// Tells what the next dial of an address comes to of which nothing was told; how many dials were told then.
    pub fn tell_dial(&mut self, address: String, plan: DialPlan) -> Result<usize, Memory> {
        self.dials.push(Dial { address, plan })?;
        Ok(self.dials.len())
    }

    /// Tells what a write on a stream does; how many things its writes were told then, and did not do.
    pub fn tell_taking(&mut self, number: u64, taking: Taking) -> Result<usize, CaseFault> {
        self.reach(number)?;
        match self.streams.get_mut(number as usize) {
            Some(stream) => {
                stream.takings.push(taking)?;
                Ok(stream.takings.len())
            }
            None => Err(NO_STREAM),
        }
    }

    /// Tells what comes on a stream; how many things its reads were told then, and did not do.
    pub fn tell_coming(&mut self, number: u64, coming: Coming) -> Result<usize, CaseFault> {
        self.reach(number)?;
        match self.streams.get_mut(number as usize) {
            Some(stream) => {
                stream.comings.push(coming)?;
                Ok(stream.comings.len())
            }
            None => Err(NO_STREAM),
        }
    }

    /// Has bytes come on a stream, in pieces of that size where there is one.
    pub fn tell_bytes(
        &mut self,
        number: u64,
        bytes: &[u8],
        piece: Option<usize>,
    ) -> Result<(), CaseFault> {
        self.reach(number)?;
        match self.streams.get_mut(number as usize) {
            Some(stream) => Ok(stream.come(self.alloc, bytes, piece)?),
            None => Err(NO_STREAM),
        }
    }

    /// Has the list reach up to a number, where that is not too great.
    fn reach(&mut self, number: u64) -> Result<(), Memory> {
        if number >= MOST_STREAMS {
            return Ok(());
        }
        for _ in self.streams.len() as u64..number.saturating_add(1) {
            self.streams.push(Stream::new(self.alloc))?;
        }
        Ok(())
    }

    /// All streams that were spoken of, by their numbers.
    pub fn streams(&self) -> &[Stream] {
        self.streams.as_slice()
    }

    /// A dial of an address, whose stream would have that number.
    pub fn dial(&mut self, address: &str, stream: u64) -> DialPlan {
        let plan = self.next_plan(address);
        if plan != DialPlan::Opens {
            return plan;
        }
        if self.reach(stream).is_err() {
            return DialPlan::Starved;
        }
        match self.streams.get_mut(stream as usize) {
            Some(stream) => {
                stream.dialled = true;
                DialPlan::Opens
            }
            None => DialPlan::Starved,
        }
    }

    /// What was told of the next dial of an address.
    fn next_plan(&mut self, address: &str) -> DialPlan {
        let place = self
            .dials
            .iter()
            .position(|dial| dial.address.as_str() == address);
        match place {
            Some(place) => self.dials.remove(place).plan,
            None => DialPlan::Opens,
        }
    }

    /// A write on a stream.
    pub fn take(&mut self, stream: u64, bytes: &[u8]) -> Wrote
        requires { 0 < length bytes.now }
        ensures { TakesWithin bytes.now result }
    {
        match self.streams.get_mut(stream as usize) {
            Some(stream) => stream.take(bytes),
            None => Wrote::Memory,
        }
    }

    /// A read on a stream.
    pub fn give(&mut self, stream: u64, into: &mut [u8]) -> Came
        requires { 0 < length into.old }
        ensures { GotWithin into.new result }
    {
        match self.streams.get_mut(stream as usize) {
            Some(stream) => stream.give(into),
            None => Came::Memory,
        }
    }

    /// The close of a stream.
    pub fn close(&mut self, stream: u64) {
        if let Some(stream) = self.streams.get_mut(stream as usize) {
            stream.closed = true;
        }
    }
}
