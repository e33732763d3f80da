ghost use Rattle.std.specs.Prelude.{◌≡◌, ◌↔◌, ◌⊎◌, ◌<◌, ◌-◌, ◌≤◌, [], length, min, IfOk};
ghost use Rattle.net_link.specs.Causes.{HasCause, count_of};
ghost use Rattle.net_link.specs.Failing.{IsDue, unused};
ghost use Rattle.net_link.specs.Sinks.{IfTook, TakesTo, TookWithin, sink_counts};

use crate::failures::Failures;
use crate::{Sink, SinkTook};
use bson_doc::{Buffer, Memory, Rows};
use std::alloc::Global;
use std::marker::Model;

/// A sink in memory that tells what it took. Its writes fail at the listed calls, and where its size is full.
#[derive(Debug, Drop)]
pub struct VecSink {
    bytes: Buffer<u8>,
    size: usize,
    failures: Failures,
}

impl Model for VecSink {
    ghost use Rattle.std.specs.Prelude.{◌+◌, ◌≤◌, length};
    ghost use Rattle.net_link.specs.Sinks.{Sized};

    ghost Value = { Sized };

    ghost view = { λ s. record { written = s.bytes.items; size = s.size; failing = s.failures } };

    ghost invariant = { λ s. (length s.bytes.items ≤ s.size) × (s.size ≤ length s.bytes.items + s.bytes.room) };
}

impl VecSink {
    /// A sink for `size` bytes, for which it takes its memory here. `fails` numbers the calls that fail, from 1.
    pub fn new(alloc: Global, size: usize, fails: Rows<u64>) -> Result<VecSink, Memory>
        ensures written { IfOk result (λ sink. sink.written ≡ []) }
        ensures size { IfOk result (λ sink. sink.size ≡ size) }
        ensures failing { IfOk result (λ sink. sink.failing ≡ unused fails) }
    {
        let mut bytes = Buffer::new(alloc);
        bytes.reserve(size)?;
        Ok(VecSink {
            bytes,
            size,
            failures: Failures::new(fails),
        })
    }

    /// What it took.
    pub fn written(&self) -> &[u8]
        ensures { result.now ≡ self.now.written }
    {
        self.bytes.as_slice()
    }
}

impl Sink for VecSink {
    ghost use Rattle.net_link.specs.Causes.{count_of, count_of-below};

    ghost faults = { λ s. count_of s.failing.faults };

    ghost tells = { Unit {0} };

    ghost written = { λ s. s.written };

    ghost counts = { λ s. count_of-below s.failing.faults };

    /// Takes as much of the piece as its size has room for.
    fn write(&mut self, bytes: &[u8]) -> SinkTook
        requires { 0 < length bytes.now }
        ensures within { TookWithin bytes.now result }
        ensures cause { HasCause (count_of self.old.failing.faults) (count_of self.new.failing.faults) (result ≡ SinkTook.Failed) }
        ensures told { TakesTo self.old.written self.new.written bytes.now result }

        ensures size { self.new.size ≡ self.old.size }
        ensures fails { (result ≡ SinkTook.Failed) ↔ (IsDue self.old.failing ⊎ (self.old.size ≤ length self.old.written)) }
        ensures counts { self.new.failing ≡ sink_counts result self.old.failing }
        ensures whole { IfTook result (λ n. n ≡ min (length bytes.now) (self.old.size - length self.old.written)) }
    {
        let room = self.size - self.bytes.len();
        if room == 0 || self.failures.is_due() {
            self.failures.fail();
            return SinkTook::Failed;
        }
        self.failures.count();
        let count = bytes.len().min(room);
        self.bytes.put_all(&bytes[..count]);
        SinkTook::Took(count)
    }
}
