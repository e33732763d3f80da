ghost use Rattle.std.specs.Prelude.{◌≡◌, ◌↔◌, ◌<◌, [], length, min};
ghost use Rattle.net_link.specs.Causes.{HasCause, count_of};
ghost use Rattle.net_link.specs.Failing.{IsDue, unused};
ghost use Rattle.net_link.specs.Sources.{Gives, GivesWithin, IfGot, source_counts};

use crate::failures::Failures;
use crate::pieces::copy_front;
use crate::{Source, SourceCame};
use bson_doc::{Bytes, Rows};
use std::marker::Model;

/// A source in memory that tells what is left, and whose reads fail at the listed calls.
#[derive(Debug, Drop)]
pub struct SliceSource {
    bytes: Bytes,
    place: usize,
    failures: Failures,
}

impl Model for SliceSource {
    ghost use Rattle.std.specs.Prelude.{◌≤◌, drop, length};
    ghost use Rattle.net_link.specs.Sources.{Slice};

    ghost Value = { Slice };

    ghost view = { λ s. record { left = drop s.place s.bytes; failing = s.failures } };

    ghost invariant = { λ s. s.place ≤ length s.bytes };
}

impl SliceSource {
    /// A source of these bytes. `fails` numbers the calls that fail, from 1.
    pub fn new(bytes: Bytes, fails: Rows<u64>) -> SliceSource
        ensures left { result.left ≡ bytes }
        ensures failing { result.failing ≡ unused fails }
    {
        SliceSource {
            bytes,
            place: 0,
            failures: Failures::new(fails),
        }
    }
}

impl Source for SliceSource {
    ghost use Rattle.net_link.specs.Causes.{count_of, count_of-below};

    ghost faults = { λ s. count_of s.failing.faults };

    ghost tells = { Unit {0} };

    ghost left = { λ s. s.left };

    ghost counts = { λ s. count_of-below s.failing.faults };

    fn read(&mut self, into: &mut [u8]) -> SourceCame
        requires { 0 < length into.old }
        ensures within { GivesWithin into.new result }
        ensures cause { HasCause (count_of self.old.failing.faults) (count_of self.new.failing.faults) (result ≡ SourceCame.Failed) }
        ensures told { Gives self.old.left self.new.left into.new result }

        ensures fails { (result ≡ SourceCame.Failed) ↔ IsDue self.old.failing }
        ensures counts { self.new.failing ≡ source_counts result self.old.failing }
        ensures whole { IfGot result (λ n. n ≡ min (length into.old) (length self.old.left)) }
    {
        if self.failures.is_due() {
            self.failures.fail();
            return SourceCame::Failed;
        }
        self.failures.count();
        let rest = &self.bytes.as_slice()[self.place..];
        if rest.is_empty() {
            return SourceCame::End;
        }
        let count = copy_front(rest, into);
        self.place += count;
        SourceCame::Got(count)
    }
}
