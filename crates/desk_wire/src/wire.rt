ghost use Rattle.std.specs.Prelude.{◌≡◌, ◌<◌, ◌≤◌, ◌+◌, ◌-◌, ◌↔◌, ◌++◌, ℕ, false, [], Some, length, nat_lt};
ghost use Rattle.net_link.specs.Causes.{HasCause};
ghost use Rattle.net_link.specs.Events.{Adds};
ghost use Rattle.net_link.specs.Calls.{write_events, read_events, TakesWithin};
ghost use Rattle.net_link.specs.Inbox.{ReadsInbox};
ghost use Rattle.net_link.specs.Keeps.{Keeps, all, all_but_inbox_of};
ghost use Rattle.net_link.specs.Turns.{added, AddsUpTo};
ghost use Rattle.msg_wire.specs.Reading.{flaw};
ghost use Rattle.desk_wire.specs.Exchange.{Exchanges, MustWait};
ghost use Rattle.desk_wire.specs.Push.{push_shuts, Pushes};
ghost use Rattle.desk_wire.specs.Pull.{pull_shuts, Pulls};
ghost use Rattle.desk_wire.specs.State.{opened};
ghost use Rattle.desk_wire.specs.Steps.{after_write, read_shuts, Judges};

use crate::{Pulled, Pushed};
use bson_doc::{Buffer, Bytes, Rows};
use msg_wire::{Message, MsgFault, read};
use net_link::{Came, Net, Wrote, receive_some, send_some};
use std::alloc::Global;
use std::marker::Model;

/// One stream's unsent bytes and half-read message.
///
/// Contracts see its stream, the bytes that were queued and not sent, those that came and are not yet handed out, and
/// whether it is shut.
#[derive(Debug, Drop)]
pub struct Wire {
    stream: u64,
    queued: Bytes,
    sent: usize,
    held: Buffer<u8>,
    shut: bool,
}

impl Model for Wire {
    ghost use Rattle.std.specs.Prelude.{◌≤◌, drop, length};
    ghost use Rattle.desk_wire.specs.State.{State};
    ghost use Rattle.msg_wire.specs.Fronts.{HasNoneTooMany};

    ghost Value = { State };

    ghost view = { λ w. record { stream = w.stream; unsent = drop w.sent w.queued; held = w.held.items; is_shut = w.shut } };

    ghost invariant = { λ w. (w.sent ≤ length w.queued) × HasNoneTooMany w.held.items };
}

/// What the bytes that are held are.
#[derive(Debug, Drop)]
pub enum Judged {
    /// The front of a message; so many bytes of it are needed.
    Short { need: usize },
    /// A message, all of them.
    Whole(Message),
    /// No message, for this fault.
    Bad(MsgFault),
    /// There was no memory to read them.
    Memory,
}

impl Wire {
    /// The wire of a stream on which nothing was done. It takes no memory.
    pub fn new(alloc: Global, stream: u64) -> Wire
        ensures { result ≡ opened stream }
    {
        Wire {
            stream,
            queued: Rows::new(alloc),
            sent: 0,
            held: Buffer::new(alloc),
            shut: false,
        }
    }

    /// Gives it the bytes that are to be sent next; none may be unsent. It takes no memory.
    pub fn queue(&mut self, bytes: Bytes)
        requires { self.old.unsent ≡ [] }
        ensures { self.new ≡ record self.old { unsent = bytes } }
    {
        self.queued = bytes;
        self.sent = 0;
    }

    /// Whether bytes that were queued are unsent.
    pub fn has_unsent(&self) -> bool
        ensures { result ≡ nat_lt 0 (length self.now.unsent) }
    {
        self.sent < self.queued.len()
    }

    /// Sends as many of the unsent bytes as the net takes now, in order.
    pub fn push<N: Net>(&mut self, net: &mut N) -> Pushed
        requires live { self.old.is_shut ≡ false }
        requires is_open { N.is_open net.old self.old.stream }

        ensures kept { self.new ≡ record self.old { unsent = self.new.unsent; is_shut = push_shuts result } }
        ensures sends { Pushes N.tells self.old.stream self.old.unsent self.new.unsent (N.history net.old) (N.history net.new) result }
        ensures done { (result ≡ Pushed.Done) ↔ (self.new.unsent ≡ []) }
        ensures cause { HasCause (N.faults net.old) (N.faults net.new) (result ≡ Pushed.Fault) }

        ensures keeps { Keeps all N.tells N.is_open N.next N.inbox N.has_ended net.old net.new }
        ensures full { N.tells → result ≡ Pushed.NotYet → N.is_full net.new self.old.stream }
    {
        'pushing: while self.has_unsent() {
            match self.push_some(net) {
                Wrote::Took(_) => {}
                Wrote::NotYet => return Pushed::NotYet,
                Wrote::Failed => return Pushed::Fault,
                Wrote::Memory => return Pushed::Memory,
            }
        }
        Pushed::Done
    }

    /// Takes the next message from the stream, where it is there whole, and no byte behind it.
    pub fn pull<N: Net>(&mut self, alloc: Global, net: &mut N) -> Pulled
        requires live { self.old.is_shut ≡ false }
        requires is_open { N.is_open net.old self.old.stream }

        ensures kept { self.new ≡ record self.old { held = self.new.held; is_shut = pull_shuts result } }
        ensures takes { Pulls N.tells self.old.stream self.old.held self.new.held (N.history net.old) (N.history net.new)
            (N.inbox net.old self.old.stream) (N.inbox net.new self.old.stream) (N.has_ended net.new self.old.stream) result }
        ensures cause { HasCause (N.faults net.old) (N.faults net.new) (result ≡ Pulled.Fault) }

        ensures keeps { Keeps (all_but_inbox_of self.old.stream) N.tells N.is_open N.next N.inbox N.has_ended net.old net.new }
    {
        'pulling: loop {
            match self.judge(alloc) {
                Judged::Short { need } => match self.pull_some(net, need) {
                    Came::Got(_) => {}
                    Came::NotYet => return Pulled::NotYet,
                    Came::End => return Pulled::End,
                    Came::Failed => return Pulled::Fault,
                    Came::Memory => return Pulled::Memory,
                },
                Judged::Whole(message) => return Pulled::Whole(message),
                Judged::Bad(fault) => return Pulled::Bad(fault),
                Judged::Memory => return Pulled::Memory,
            }
        }
    }

    /// One push, and one pull where all is sent: what a caller does who waits for the next message by means of its own.
    pub fn turn<N: Net>(&mut self, alloc: Global, net: &mut N) -> Pulled
        requires live { self.old.is_shut ≡ false }
        requires is_open { N.is_open net.old self.old.stream }

        ensures kept { self.new ≡ record self.old { unsent = self.new.unsent; held = self.new.held; is_shut = pull_shuts result } }
        ensures trades { Exchanges N.tells self.old self.new (N.history net.old) (N.history net.new) result }
        ensures cause { HasCause (N.faults net.old) (N.faults net.new) (result ≡ Pulled.Fault) }

        ensures keeps { Keeps (all_but_inbox_of self.old.stream) N.tells N.is_open N.next N.inbox N.has_ended net.old net.new }
        ensures waits { N.tells → result ≡ Pulled.NotYet
            → MustWait self.new.unsent (N.is_full net.new self.old.stream) (N.inbox net.new self.old.stream) (N.has_ended net.new self.old.stream) }
    {
        match self.push(net) {
            Pushed::Done => self.pull(alloc, net),
            Pushed::NotYet => Pulled::NotYet,
            Pushed::Fault => Pulled::Fault,
            Pushed::Memory => Pulled::Memory,
        }
    }

    /// One write of the unsent bytes.
    fn push_some<N: Net>(&mut self, net: &mut N) -> Wrote
        requires is_open { N.is_open net.old self.old.stream }
        requires some { 0 < length self.old.unsent }

        ensures after { self.new ≡ after_write self.old result }
        ensures within { TakesWithin self.old.unsent result }
        ensures cause { HasCause (N.faults net.old) (N.faults net.new) (result ≡ Wrote.Failed) }
        ensures keeps { Keeps all N.tells N.is_open N.next N.inbox N.has_ended net.old net.new }
        ensures told { N.tells → Adds (write_events self.old.stream self.old.unsent result) (N.history net.old) (N.history net.new) }
        ensures full { N.tells → result ≡ Wrote.NotYet → N.is_full net.new self.old.stream }
    {
        match send_some(net, self.stream, self.queued.as_slice(), self.sent) {
            Wrote::Took(count) => {
                self.sent += count;
                Wrote::Took(count)
            }
            Wrote::NotYet => Wrote::NotYet,
            Wrote::Failed => {
                self.shut = true;
                Wrote::Failed
            }
            Wrote::Memory => Wrote::Memory,
        }
    }

    /// One read of what the message at the front still lacks, where `need` bytes are asked for in all.
    fn pull_some<N: Net>(&mut self, net: &mut N, need: usize) -> Came
        requires is_open { N.is_open net.old self.old.stream }
        requires short { flaw self.old.held ≡ Some (MsgFault.Short need) }

        ensures kept { self.new ≡ record self.old { held = self.new.held; is_shut = read_shuts self.old.is_shut result } }
        ensures grows { self.new.held ≡ self.old.held ++ added self.old.held self.new.held }
        ensures within { AddsUpTo (need - length self.old.held) (added self.old.held self.new.held) result }
        ensures cause { HasCause (N.faults net.old) (N.faults net.new) (result ≡ Came.Failed) }
        ensures keeps { Keeps (all_but_inbox_of self.old.stream) N.tells N.is_open N.next N.inbox N.has_ended net.old net.new }
        ensures told { N.tells → Adds (read_events self.old.stream (added self.old.held self.new.held) result) (N.history net.old) (N.history net.new) }
        ensures inbox { N.tells → ReadsInbox (N.inbox net.old self.old.stream) (N.inbox net.new self.old.stream) (N.has_ended net.new self.old.stream) (added self.old.held self.new.held) result }
    {
        let want = need - self.held.len();
        match receive_some(net, self.stream, &mut self.held, want) {
            Came::Got(count) => Came::Got(count),
            Came::NotYet => Came::NotYet,
            Came::End => {
                self.shut = true;
                Came::End
            }
            Came::Failed => {
                self.shut = true;
                Came::Failed
            }
            Came::Memory => Came::Memory,
        }
    }

    /// Reads the bytes that are held, and takes a message from them.
    fn judge(&mut self, alloc: Global) -> Judged
        ensures { Judges self.old self.new result }
    {
        match read(alloc, self.held.as_slice()) {
            Ok(message) => {
                self.held = Buffer::new(alloc);
                Judged::Whole(message)
            }
            Err(MsgFault::Short { need }) => Judged::Short {
                need: need as usize,
            },
            Err(MsgFault::Memory) => Judged::Memory,
            Err(fault) => {
                self.shut = true;
                Judged::Bad(fault)
            }
        }
    }
}
