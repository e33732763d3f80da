ghost use Rattle.std.specs.Prelude.{◌≡◌, [], true, false, OnOk, OnErr};
ghost use Rattle.net_link.specs.Causes.{HasCause};
ghost use Rattle.net_link.specs.Keeps.{Keeps, all_but_inbox_of};
ghost use Rattle.member_serve.specs.Connections.{begun};
ghost use Rattle.member_serve.specs.Serving.{Serves, answered as answered_with, answering, id_of as id_for, is_end};

use crate::{Memory, Served};
use desk_wire::{Pulled, Wire};
use member_core::Member;
use msg_wire::Message;
use net_link::Net;
use std::alloc::Global;
use std::marker::Model;

/// How many ids answers have: they are the numbers of an int32 that are not negative.
const IDS: u64 = 1 << 31;

/// The connection of one client: what came of its next request, what is unsent of its last answer, and how many requests were
/// answered.
#[derive(Debug, Drop)]
pub struct Connection {
    wire: Wire,
    stream: u64,
    answered: u64,
    over: bool,
}

impl Model for Connection {
    ghost use Rattle.std.specs.Prelude.{◌≡◌};
    ghost use Rattle.member_serve.specs.Connections.{ConnectionState};

    ghost Value = { ConnectionState };

    ghost view = { λ s. record { wire = s.wire; answered = s.answered } };

    ghost invariant = { λ s. (s.stream ≡ s.wire.stream) × (s.over ≡ s.wire.is_shut) };
}

impl Connection {
    /// A connection on a stream on which nothing was done. It takes no memory.
    pub fn new(alloc: Global, stream: u64) -> Connection
        ensures { result ≡ begun stream }
    {
        Connection {
            wire: Wire::new(alloc, stream),
            stream,
            answered: 0,
            over: false,
        }
    }

    /// Whether it is over: it takes no further turn, and its stream is to be closed.
    pub fn is_over(&self) -> bool
        ensures { result ≡ self.now.wire.is_shut }
    {
        self.over
    }

    /// Sends as much of the unsent answer as the net takes now; where all is sent, takes the next message of the stream, and
    /// has the member answer it. It does not wait.
    pub fn turn<N: Net>(&mut self, alloc: Global, net: &mut N, member: &mut Member) -> Served
        requires live { self.old.wire.is_shut ≡ false }
        requires is_open { N.is_open net.old self.old.wire.stream }

        ensures serves { Serves N.tells self.old self.new member.old member.new (N.history net.old) (N.history net.new) result }
        ensures over { self.new.wire.is_shut ≡ is_end result }
        ensures stream { self.new.wire.stream ≡ self.old.wire.stream }
        ensures cause { HasCause (N.faults net.old) (N.faults net.new) (result ≡ Served.Fault) }

        ensures keeps { Keeps (all_but_inbox_of self.old.wire.stream) N.tells N.is_open N.next N.inbox N.has_ended net.old net.new }
    {
        match self.wire.turn(alloc, net) {
            Pulled::Whole(message) => match self.answer(alloc, &message, member) {
                Ok(()) => Served::Answered,
                Err(_) => Served::Memory,
            },
            Pulled::NotYet => Served::NotYet,
            Pulled::End => {
                self.over = true;
                Served::End
            }
            Pulled::Fault => {
                self.over = true;
                Served::Fault
            }
            Pulled::Bad(fault) => {
                self.over = true;
                Served::Bad(fault)
            }
            Pulled::Memory => Served::Memory,
        }
    }

    /// Has the member answer a message, and queues the answer.
    fn answer(
        &mut self,
        alloc: Global,
        message: &Message,
        member: &mut Member,
    ) -> Result<(), Memory>
        requires { self.old.wire.unsent ≡ [] }
        ensures connection { OnOk result (self.new ≡ answered_with self.old member.old message.now) }
        ensures member { OnOk result (member.new ≡ answering self.old member.old message.now) }
        ensures err { OnErr result (self.new ≡ self.old) }
        ensures member_err { OnErr result (member.new ≡ member.old) }
    {
        let nth = self.answered;
        let answer = member.answer(alloc, message, id_of(nth), self.stream, nth, true)?;
        self.wire.queue(answer.bytes);
        self.answered = nth.saturating_add(1);
        Ok(())
    }
}

/// The id of the answer to a stream's request of that number.
fn id_of(nth: u64) -> i32
    ensures { result ≡ id_for nth }
{
    (nth % IDS) as i32
}
