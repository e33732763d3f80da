ghost use Rattle.std.specs.Prelude.{◌≡◌, ◌+◌, true, false, [], None, Some, length, OnErr, OnOk, IfNone, IfSome, IsSome};
ghost use Rattle.std.specs.Option.{option_map};
ghost use Rattle.net_link.specs.Causes.{HasCause};
ghost use Rattle.net_link.specs.Keeps.{Keeps, all, all_but_inbox_of};
ghost use Rattle.desk_wire.specs.Exchange.{Exchanges, MustWait};
ghost use Rattle.desk_wire.specs.Pull.{pull_shuts};
ghost use Rattle.desk_wire.specs.Push.{Pushes, push_shuts};
ghost use Rattle.desk_wire.specs.State.{State};
ghost use Rattle.wired_trail.specs.Lines.{Begins, IsIdle, IsThere, KeepsOthers, line_at, with_unsent};

use crate::{Memory, StreamUse};
use bson_doc::Bytes;
use desk_wire::{Pulled, Pushed, Wire};
use net_link::Net;
use std::alloc::Global;
use std::collections::BTreeMap;
use std::marker::Model;

/// A stream that is in use: its wire, and what it is for.
#[derive(Debug, Drop)]
pub(crate) struct Line {
    wire: Wire,
    is_for: StreamUse,
}

/// The streams that are in use, by number.
#[derive(Drop)]
pub(crate) struct Lines {
    lines: BTreeMap<u64, Line>,
}

impl Model for Lines {
    ghost use Rattle.std.specs.Prelude.{ℕ, List};
    ghost use Rattle.wired_trail.specs.declared.lines.Line.{Line};

    ghost Value = { List (ℕ × Line) };

    ghost view = { λ l. l.lines.entries };
}

impl Lines {
    /// No stream is in use. It takes no memory.
    pub(crate) fn new(alloc: Global) -> Lines
        ensures { result ≡ [] }
    {
        Lines {
            lines: BTreeMap::new(alloc),
        }
    }

    /// What a stream is for; None where it is not in use.
    pub(crate) fn use_of(&self, stream: u64) -> Option<StreamUse>
        ensures { result ≡ option_map (λ line. line.is_for) (line_at self.now stream) }
    {
        match self.lines.get(&stream) {
            Some(line) => Some(line.is_for),
            None => None,
        }
    }

    /// Whether a stream is in use, and all that was queued on it is sent.
    pub(crate) fn is_idle(&self, stream: u64) -> bool
        ensures yes { result ≡ true → IsIdle self.now stream }
        ensures no { result ≡ false → IsIdle self.now stream → ⊥ }
    {
        match self.lines.get(&stream) {
            Some(line) => !line.wire.has_unsent(),
            None => false,
        }
    }

    /// Adds a stream that was dialled.
    pub(crate) fn add(
        &mut self,
        alloc: Global,
        stream: u64,
        is_for: StreamUse,
    ) -> Result<(), Memory>
        requires { line_at self.old stream ≡ None }
        ensures ok { OnOk result (Begins is_for self.old self.new stream) }
        ensures err { OnErr result (self.new ≡ self.old) }
    {
        let line = Line {
            wire: Wire::new(alloc, stream),
            is_for,
        };
        match self.lines.insert(stream, line) {
            Ok(_) => Ok(()),
            Err(failed) => Err(failed.into()),
        }
    }

    /// Queues bytes on a stream.
    pub(crate) fn queue(&mut self, stream: u64, bytes: Bytes)
        requires { IsIdle self.old stream }
        ensures queued { option_map (with_unsent bytes) (line_at self.old stream) ≡ line_at self.new stream }
        ensures others { KeepsOthers stream self.old self.new }
    {
        if let Some(line) = self.lines.get_mut(&stream) {
            line.wire.queue(bytes);
        }
    }

    /// One turn of a stream's wire.
    pub(crate) fn turn<N: Net>(&mut self, alloc: Global, net: &mut N, stream: u64) -> Pulled
        requires there { IsThere self.old stream }
        requires own { IfSome (line_at self.old stream) (λ line. line.wire.stream ≡ stream) }
        requires going { IfSome (line_at self.old stream) (λ line. line.wire.is_shut ≡ false) }
        requires is_open { N.is_open net.old stream }

        ensures same { IfSome (line_at self.old stream) (λ before. IfSome (line_at self.new stream) (λ now.
            now ≡ record before { wire = record before.wire { unsent = now.wire.unsent; held = now.wire.held; is_shut = pull_shuts result } })) }
        ensures trades { IfSome (line_at self.old stream) (λ before. IfSome (line_at self.new stream) (λ now.
            Exchanges N.tells before.wire now.wire (N.history net.old) (N.history net.new) result)) }
        ensures still { IsSome (line_at self.new stream) }
        ensures others { KeepsOthers stream self.old self.new }
        ensures cause { HasCause (N.faults net.old) (N.faults net.new) (result ≡ Pulled.Fault) }
        ensures keeps { Keeps (all_but_inbox_of stream) N.tells N.is_open N.next N.inbox N.has_ended net.old net.new }
        ensures waits { N.tells → result ≡ Pulled.NotYet → IfSome (line_at self.new stream) (λ now.
            MustWait now.wire.unsent (N.is_full net.new stream) (N.inbox net.new stream) (N.has_ended net.new stream)) }
    {
        match self.lines.get_mut(&stream) {
            Some(line) => line.wire.turn(alloc, net),
            None => Pulled::Memory,
        }
    }

    /// Sends on a stream what the net takes now.
    pub(crate) fn push<N: Net>(&mut self, net: &mut N, stream: u64) -> Pushed
        requires there { IsThere self.old stream }
        requires own { IfSome (line_at self.old stream) (λ line. line.wire.stream ≡ stream) }
        requires going { IfSome (line_at self.old stream) (λ line. line.wire.is_shut ≡ false) }
        requires is_open { N.is_open net.old stream }

        ensures same { IfSome (line_at self.old stream) (λ before. IfSome (line_at self.new stream) (λ now.
            now ≡ record before { wire = record before.wire { unsent = now.wire.unsent; is_shut = push_shuts result } })) }
        ensures sends { IfSome (line_at self.old stream) (λ before. IfSome (line_at self.new stream) (λ now.
            Pushes N.tells stream before.wire.unsent now.wire.unsent (N.history net.old) (N.history net.new) result)) }
        ensures still { IsSome (line_at self.new stream) }
        ensures others { KeepsOthers stream self.old self.new }
        ensures cause { HasCause (N.faults net.old) (N.faults net.new) (result ≡ Pushed.Fault) }
        ensures keeps { Keeps all N.tells N.is_open N.next N.inbox N.has_ended net.old net.new }
    {
        match self.lines.get_mut(&stream) {
            Some(line) => line.wire.push(net),
            None => Pushed::Memory,
        }
    }

    /// Takes a stream out.
    pub(crate) fn take_out(&mut self, stream: u64)
        ensures gone { line_at self.new stream ≡ None }
        ensures others { KeepsOthers stream self.old self.new }
    {
        self.lines.remove(&stream);
    }

    /// Takes the stream of the lowest number out.
    pub(crate) fn take_first(&mut self) -> Option<u64>
        ensures there { IfSome result (λ stream. IsThere self.old stream) }
        ensures gone { IfSome result (λ stream. line_at self.new stream ≡ None) }
        ensures others { IfSome result (λ stream. KeepsOthers stream self.old self.new) }
        ensures fewer { IfSome result (λ stream. length self.new + 1 ≡ length self.old) }
        ensures none { IfNone result (self.new ≡ self.old) }
    {
        let (stream, _) = self.lines.pop_first()?;
        Some(stream)
    }
}
