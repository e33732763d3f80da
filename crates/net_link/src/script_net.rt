ghost use Rattle.std.specs.Prelude.{◌≡◌, ◌≢◌, ◌⊎◌, ◌<◌, ◌≤◌, List, ℕ, false, [], ◌∷◌, ◌++◌, length, take, OnOk, OnErr};
ghost use Rattle.net_link.specs.declared.event.NetEvent.TheVariants as event;
ghost use Rattle.net_link.specs.Causes.{HasCause, count_of};
ghost use Rattle.net_link.specs.Calls.{dial_events, write_events, read_events, close_events, IfStream, IsNewStream, TakesWithin, GotWithin};
ghost use Rattle.net_link.specs.Events.{Adds, IsFresh, is_at};
ghost use Rattle.net_link.specs.Failing.{IsDue, unused};
ghost use Rattle.net_link.specs.Inbox.{ReadsInbox};
ghost use Rattle.net_link.specs.Keeps.{all, all_but, all_but_inbox_of};
ghost use Rattle.net_link.specs.Script.{ScriptKeeps, IsLive, Ends, unread, line_at, piece_size, dial_state, write_state, read_state, close_state, noted, faulted, IsGiven};

use crate::event_log::EventLog;
use crate::failures::Failures;
use crate::line::Line;
use crate::pieces::copy_front;
use crate::{Came, Dialed, Net, NetEvent, StreamPlan, Wrote};
use bson_doc::{Bytes, Memory, Rows, Text};
use std::alloc::Global;
use std::marker::Model;

/// A net in memory that follows plans, tells its history, and fails at the listed calls.
///
/// The k-th dial gets the k-th plan, also where that dial fails; a dial past the last plan fails. A write takes the
/// whole piece. Calls of `dial`, `write` and `read` have numbers from 1; those of `close`, which cannot fail, and those
/// that answer `Memory`, which change nothing, have none.
#[derive(Debug, Drop)]
pub struct ScriptNet {
    plans: Vec<StreamPlan>,
    lines: Vec<Line>,
    log: EventLog,
    failures: Failures,
    alloc: Global,
}

impl Model for ScriptNet {
    ghost use Rattle.std.specs.Prelude.{reverse};
    ghost use Rattle.net_link.specs.Script.{Script, IsSound};

    ghost Value = { Script };

    ghost view = { λ n. record { plans = reverse n.plans.items; lines = n.lines.items; events = n.log.events; failing = n.failures } };

    ghost invariant = { λ n. IsSound n.lines.items n.log };
}

impl ScriptNet {
    /// A net that will follow these plans. `fails` numbers the calls that fail, from 1.
    pub fn new(alloc: Global, plans: Rows<StreamPlan>, fails: Rows<u64>) -> ScriptNet
        ensures plans { result.plans ≡ plans }
        ensures lines { result.lines ≡ [] }
        ensures events { result.events ≡ [] }
        ensures failing { result.failing ≡ unused fails }
    {
        let mut plans = plans.into_vec();
        plans.reverse();
        ScriptNet {
            plans,
            lines: Vec::new(alloc),
            log: EventLog::new(alloc),
            failures: Failures::new(fails),
            alloc,
        }
    }

    /// All that happened, in order.
    pub fn events(&self) -> &[NetEvent]
        ensures { result.now ≡ self.now.events }
    {
        self.log.as_slice()
    }

    /// What the next read of a stream hands out into a piece of that size.
    #[tactic(auto, using(crate::proofs::ScriptLemmas::live_below))]
    fn front(&self, stream: u64, room: usize) -> &[u8]
        requires { IsLive self.now.lines stream }
        ensures { result.now ≡ take (piece_size room (line_at self.now.lines stream)) (line_at self.now.lines stream).left }
    {
        let line = &self.lines[stream as usize];
        line.front(room)
    }

    /// Whether the peer ends a stream behind its bytes.
    #[tactic(auto, using(crate::proofs::ScriptLemmas::live_below))]
    fn ends(&self, stream: u64) -> bool
        requires { IsLive self.now.lines stream }
        ensures { result ≡ (line_at self.now.lines stream).ends }
    {
        let line = &self.lines[stream as usize];
        line.ends()
    }

    /// Notes the event of a call that does not fail.
    fn note(&mut self, event: NetEvent) -> Result<(), Memory>
        requires { (s : ℕ) → length self.old.lines ≤ s → is_at event s ≡ false }
        ensures ok { OnOk result (self.new ≡ noted event self.old) }
        ensures err { OnErr result (self.new ≡ self.old) }
    {
        self.log.note(event)?;
        self.failures.count();
        Ok(())
    }

    /// Notes the event of a call that fails.
    fn fail(&mut self, event: NetEvent) -> Result<(), Memory>
        requires { (s : ℕ) → length self.old.lines ≤ s → is_at event s ≡ false }
        ensures ok { OnOk result (self.new ≡ faulted event self.old) }
        ensures later { self.old.failing.faults ≤ self.new.failing.faults }
        ensures err { OnErr result (self.new ≡ self.old) }
    {
        self.log.note(event)?;
        self.failures.fail();
        Ok(())
    }
}

impl ScriptNet {
    /// A dial that fails: its plan, if there is one, is used up.
    fn refuse(&mut self, address: Text) -> Dialed
        ensures state { self.new ≡ dial_state address result self.old }
        ensures later { self.old.failing.faults ≤ self.new.failing.faults }
        ensures never { IfStream result (λ _. ⊥) }
    {
        let Ok(()) = self.fail(NetEvent::NoDial { address }) else {
            return Dialed::Memory;
        };
        self.plans.pop();
        Dialed::Failed
    }

    /// A dial that opens the next plan's stream, with room kept for the event of its close.
    fn open(&mut self, address: Text) -> Dialed
        requires { 0 < length self.old.plans }
        ensures state { self.new ≡ dial_state address result self.old }
        ensures number { IfStream result (λ t. t ≡ length self.old.lines) }
        ensures never { result ≢ Dialed.Failed }
    {
        let Ok(()) = self.lines.reserve(1) else {
            return Dialed::Memory;
        };
        let Ok(()) = self.log.keep(2) else {
            return Dialed::Memory;
        };
        let Some(plan) = self.plans.pop() else {
            unreachable!()
        };
        let stream = self.lines.len() as u64;
        self.lines.push_reserved(Line::new(plan));
        self.log.note_kept(NetEvent::Dialled { stream, address });
        self.failures.count();
        Dialed::Stream(stream)
    }
}

impl Net for ScriptNet {
    ghost use Rattle.std.specs.Prelude.{length};
    ghost use Rattle.net_link.specs.Causes.{count_of, count_of-below};
    ghost use Rattle.net_link.specs.Script.{IsLive, Ends, unread, IsLive-below};

    ghost faults = { λ n. count_of n.failing.faults };

    ghost is_open = { λ n t. IsLive n.lines t };

    ghost next = { λ n. length n.lines };

    ghost tells = { Unit {0} };

    ghost history = { λ n. n.events };

    ghost inbox = { λ n t. unread n.lines t };

    ghost has_ended = { λ n t. Ends n.lines t };

    ghost is_full = { λ _ _. ⊥ };

    ghost counts = { λ n. count_of-below n.failing.faults };

    ghost below = { λ n t live. IsLive-below n.lines t live };

    fn dial(&mut self, address: &str) -> Dialed
        ensures cause { HasCause (count_of self.old.failing.faults) (count_of self.new.failing.faults) (result ≡ Dialed.Failed) }
        ensures keeps { ScriptKeeps all self.old self.new }
        ensures stream { IfStream result (IsNewStream (length self.old.lines) (length self.new.lines) (IsLive self.new.lines)) }
        ensures told { Adds (dial_events address.now result) self.old.events self.new.events }
        ensures fresh { IfStream result (λ t. IsFresh t self.old.events) }

        ensures state { self.new ≡ dial_state address.now result self.old }
        ensures fails { result ≡ Dialed.Failed → IsDue self.old.failing ⊎ (self.old.plans ≡ []) }
        ensures due { (IsDue self.old.failing ⊎ (self.old.plans ≡ [])) → IfStream result (λ _. ⊥) }
    {
        let Ok(address) = Text::take(self.alloc, address) else {
            return Dialed::Memory;
        };
        if self.plans.is_empty() || self.failures.is_due() {
            return self.refuse(address);
        }
        self.open(address)
    }

    #[tactic(auto, using(crate::proofs::ScriptLemmas::live_below))]
    fn write(&mut self, stream: u64, bytes: &[u8]) -> Wrote
        requires is_open { IsLive self.old.lines stream }
        requires piece { 0 < length bytes.now }

        ensures within { TakesWithin bytes.now result }
        ensures cause { HasCause (count_of self.old.failing.faults) (count_of self.new.failing.faults) (result ≡ Wrote.Failed) }
        ensures keeps { ScriptKeeps all self.old self.new }
        ensures told { Adds (write_events stream bytes.now result) self.old.events self.new.events }
        ensures full { result ≢ Wrote.NotYet }

        ensures state { self.new ≡ write_state stream bytes.now result self.old }
        ensures fails { result ≡ Wrote.Failed → IsDue self.old.failing }
        ensures due { IsDue self.old.failing → (result ≡ Wrote.Failed) ⊎ (result ≡ Wrote.Memory) }
        ensures whole { (n : ℕ) → result ≡ Wrote.Took n → n ≡ length bytes.now }
    {
        if self.failures.is_due() {
            return match self.fail(NetEvent::Fault { stream }) {
                Ok(()) => Wrote::Failed,
                Err(_) => Wrote::Memory,
            };
        }
        let Ok(out) = Bytes::take(self.alloc, bytes) else {
            return Wrote::Memory;
        };
        match self.note(NetEvent::Out { stream, bytes: out }) {
            Ok(()) => Wrote::Took(bytes.len()),
            Err(_) => Wrote::Memory,
        }
    }

    #[tactic(auto, using(crate::proofs::ScriptLemmas::live_below))]
    fn read(&mut self, stream: u64, into: &mut [u8]) -> Came
        requires is_open { IsLive self.old.lines stream }
        requires piece { 0 < length into.old }

        ensures within { GotWithin into.new result }
        ensures cause { HasCause (count_of self.old.failing.faults) (count_of self.new.failing.faults) (result ≡ Came.Failed) }
        ensures keeps { ScriptKeeps (all_but_inbox_of stream) self.old self.new }
        ensures told { Adds (read_events stream into.new result) self.old.events self.new.events }
        ensures inbox { ReadsInbox (unread self.old.lines stream) (unread self.new.lines stream) (Ends self.new.lines stream) into.new result }

        ensures state { self.new ≡ read_state stream into.new result self.old }
        ensures fails { result ≡ Came.Failed → IsDue self.old.failing }
        ensures due { IsDue self.old.failing → (result ≡ Came.Failed) ⊎ (result ≡ Came.Memory) }
        ensures most { (n : ℕ) → result ≡ Came.Got n → n ≡ piece_size (length into.old) (line_at self.old.lines stream) }
    {
        if self.failures.is_due() {
            return match self.fail(NetEvent::Fault { stream }) {
                Ok(()) => Came::Failed,
                Err(_) => Came::Memory,
            };
        }
        let front = self.front(stream, into.len());
        if !front.is_empty() {
            let Ok(bytes) = Bytes::take(self.alloc, front) else {
                return Came::Memory;
            };
            return self.give(stream, bytes, into);
        }
        if self.ends(stream) {
            return match self.note(NetEvent::Ended { stream }) {
                Ok(()) => Came::End,
                Err(_) => Came::Memory,
            };
        }
        match self.note(NetEvent::Dry { stream }) {
            Ok(()) => Came::NotYet,
            Err(_) => Came::Memory,
        }
    }

    #[tactic(auto, using(crate::proofs::ScriptLemmas::live_below))]
    fn close(&mut self, stream: u64)
        requires { IsLive self.old.lines stream }

        ensures cause { count_of self.old.failing.faults ≤ count_of self.new.failing.faults }
        ensures keeps { ScriptKeeps (all_but stream) self.old self.new }
        ensures told { Adds (close_events stream) self.old.events self.new.events }

        ensures state { self.new ≡ close_state stream self.old }
        ensures closed { ¬ IsLive self.new.lines stream }
    {
        self.log.note_kept(NetEvent::Closed { stream });
        let line = &mut self.lines[stream as usize];
        line.shut();
    }
}

impl ScriptNet {
    /// A read that hands out the front of an inbox, of which `bytes` is a copy.
    fn give(&mut self, stream: u64, bytes: Bytes, into: &mut [u8]) -> Came
        requires number { stream < length self.old.lines }
        requires front { bytes ≡ take (length bytes) (line_at self.old.lines stream).left }
        requires some { 0 < length bytes }
        requires fits { length bytes ≤ length into.old }

        ensures state { self.new ≡ read_state stream into.new result self.old }
        ensures given { IsGiven bytes into.new result }
    {
        let count = copy_front(bytes.as_slice(), into);
        let Ok(()) = self.note(NetEvent::Came { stream, bytes }) else {
            return Came::Memory;
        };
        let line = &mut self.lines[stream as usize];
        line.skip(count);
        Came::Got(count)
    }
}
