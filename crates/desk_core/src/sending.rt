//! A command that has a connection queues its request, or it is too large for its server (CRUD; MongoDB wire protocol; MongoDB,
//! Limits; Retryable Writes, Executing Retryable Write Commands).
ghost use Rattle.std.specs.Prelude.{◌≡◌, ◌≤◌, ◌<◌, [], ◌∷◌, true, false, Some, IfOk, OnOk, slice_get};
ghost use Rattle.std.specs.Option.{option_copied};
ghost use Rattle.cmd_build.specs.Sizes.{IsWithin, levels_of_time};
ghost use Rattle.cmd_build.specs.declared.command.Command.{Command};
ghost use Rattle.cmd_step.specs.Sending.{IsNextOf, IsOver};
ghost use Rattle.net_link.specs.Causes.{Rose};
ghost use Rattle.sess_book.specs.Sessions.{Sessions};
ghost use Rattle.sess_step.specs.Choices.{AreIds};
ghost use Rattle.write_retry.specs.declared.events.Next.TheVariants as next_of;
ghost use Rattle.desk_trail.specs.Owed as owed;
ghost use Rattle.desk_trail.specs.Requests.{lsid_of as lsid_at};
ghost use Rattle.wired_trail.specs.Lines.{IsIdle};
ghost use Rattle.desk_core.specs.Appends.{AppendsOf, IsOfOp};
ghost use Rattle.desk_core.specs.Commands.{IsAtWork, MovesOne};
ghost use Rattle.desk_core.specs.Kept.{IsReady, IsWriting};
ghost use Rattle.desk_core.specs.Lending.{IsLentTo, IsOnStream};
ghost use Rattle.desk_core.specs.Sending.{IsToAsk, IsToSend};

use crate::Memory;
use crate::checks::room_for;
use crate::lending::LentAt;
use crate::operation::Operation;
use crate::state::Core;
use bson_doc::{ClusterTime, Lsid};
use cmd_state::RunningCommand;
use cmd_step::{end_too_large, send};
use net_link::Net;
use request_build::{CommandRequest, MadeRequest, SendAt, Sending, command_request};
use std::alloc::{AllocError, Global};
use write_retry::Unsent;

/// The longest message that this product writes, in bytes (MongoDB, Limits: maxMessageSizeBytes).
const MOST_BYTES: u32 = 48_000_000;

/// How deep a cluster time may lie, so that a command has no more levels than a document may have (own: 100).
const MOST_LEVELS: u32 = 99;

/// Whether a command asked for nothing since it chose a server that takes no longer messages than this product writes.
fn is_to_ask(running: &RunningCommand) -> bool
    ensures yes { result ≡ true → IsToAsk running.now }
{
    match running.selected() {
        Some(selected) => {
            let server = &selected.server;
            server.max_message <= MOST_BYTES && running.asked().is_none()
        }
        None => false,
    }
}

/// Whether the greatest cluster time is not too deep to be sent.
fn is_shallow(time: Option<&ClusterTime>) -> bool
    ensures yes { result ≡ true → levels_of_time (option_copied time.entry) ≤ 99 }
{
    match time {
        Some(time) => time.body.depth() <= MOST_LEVELS,
        None => true,
    }
}

/// The id of the session at a place.
fn id_at(ids: &[Lsid], place: Option<usize>) -> Option<Lsid>
    ensures id { (s : Sessions) → AreIds ids.now s → result ≡ lsid_at s place }
{
    ids.get(place?).copied()
}

impl<N: Net> Core<N> {
    /// A command that has a connection queues its request on it, whole; or it is larger than its server takes, and then its attempt
    /// ends and it gives its connection back.
    pub fn send(
        &mut self,
        alloc: Global,
        moment: u64,
        op: u32,
        operation: &mut Operation,
    ) -> Result<(), Memory>
        requires work { IsAtWork self.old moment op operation.old }
        requires sends { operation.old.op.next ≡ next_of.Send }
        requires ids { AreIds self.old.trail.lists.sessions self.old.trail.point.state.sessions }
        requires levels { (c : Command) → slice_get self.old.trail.client.commands op ≡ Some c → IsWithin 90 c.act }
        ensures ok { OnOk result (IsReady self.new moment) }
        ensures moves { OnOk result (MovesOne op operation.new self.old.trail self.new.trail) }
        ensures appends { AppendsOf (Rose (N.faults self.old.net) (N.faults self.new.net)) (IsOfOp op) moment self.old.trail self.new.trail }
        ensures faults { N.faults self.old.net ≤ N.faults self.new.net }
    {
        // (cannot be: a connection is lent to a command that is to send, and nothing is unsent on its stream)
        let lent = self.lent_to(&operation.running).ok_or(AllocError)?;
        let stream = self.stream_lent(lent).ok_or(AllocError)?;
        if !self.wired.is_idle(stream) {
            return Err(AllocError);
        }
        let at = LentAt { moment, op, lent };
        match self.request_of(alloc, &operation.running, at, stream)? {
            CommandRequest::Made(made) => self.queue(operation, at, made),
            CommandRequest::TooLarge { size, most } => {
                self.refuse(operation, at, Unsent::TooLarge { size, most })
            }
        }
    }

    /// The request of a command on the stream of its connection, as the next one; or the sizes by which it is too large.
    fn request_of(
        &self,
        alloc: Global,
        running: &RunningCommand,
        at: LentAt,
        stream: u64,
    ) -> Result<CommandRequest, Memory>
        requires runs { self.now.is_stopped ≡ false }
        requires there { slice_get self.now.trail.point.state.commands at.op ≡ Some running.now }
        requires lent { IsLentTo self.now.trail.point.state running.now at.lent }
        requires on { IsOnStream self.now.trail.point.state self.now.lines at.lent stream }
        requires ids { AreIds self.now.trail.lists.sessions self.now.trail.point.state.sessions }
        requires levels { (c : Command) → slice_get self.now.trail.client.commands at.op ≡ Some c → IsWithin 90 c.act }
        ensures made { IfOk result (IsToSend self.now.trail at.op stream) }
    {
        let time = self.gossip.greatest();
        if !is_to_ask(running) || !is_shallow(time) {
            // (cannot be: requests come behind the choice of a server, and no document of a reply is deeper than 98 levels)
            return Err(AllocError);
        }
        // (cannot be: the command was given)
        let command = self.wired.commands().get(at.op as usize).ok_or(AllocError)?;
        let sending = Sending {
            settings: self.wired.settings(),
            command,
            running,
            lsid: id_at(self.wired.sessions(), running.session()),
            time,
        };
        let place = self.wired.requests().len();
        let to = SendAt {
            op: at.op,
            stream,
            place,
        };
        command_request(alloc, sending, to)
    }

    /// Queues a request of a command.
    fn queue(
        &mut self,
        operation: &mut Operation,
        at: LentAt,
        made: MadeRequest,
    ) -> Result<(), Memory>
        requires work { IsAtWork self.old at.moment at.op operation.old }
        requires sends { operation.old.op.next ≡ next_of.Send }
        requires request { IsNextOf self.old.trail at.op made.request }
        requires bytes { made.bytes ≡ made.request.bytes }
        requires idle { IsIdle self.old.lines made.request.stream }
        requires on { IsOnStream self.old.trail.point.state self.old.lines at.lent made.request.stream }
        ensures ok { OnOk result (IsReady self.new at.moment) }
        ensures moves { OnOk result (MovesOne at.op operation.new self.old.trail self.new.trail) }
        ensures appends { AppendsOf ⊥ (IsOfOp at.op) at.moment self.old.trail self.new.trail }
        ensures net { self.new.net ≡ self.old.net }
    {
        self.check_free(made.request.stream)?;
        let room = room_for(self.closings, 1, 1)?;
        self.wired.reserve(room)?;
        operation.awaited = made.request.id;
        send(
            &mut self.wired,
            at.moment,
            at.op,
            &mut operation.running,
            made,
        );
        Ok(())
    }

    /// The attempt of a command ends, since it is too large, and its connection comes back.
    fn refuse(&mut self, operation: &mut Operation, at: LentAt, why: Unsent) -> Result<(), Memory>
        requires work { IsAtWork self.old at.moment at.op operation.old }
        requires sends { operation.old.op.next ≡ next_of.Send }
        requires lent { IsLentTo self.old.trail.point.state operation.old at.lent }
        requires over { IsOver self.old.trail at.op why }
        ensures ok { OnOk result (IsReady self.new at.moment) }
        ensures moves { OnOk result (MovesOne at.op operation.new self.old.trail self.new.trail) }
        ensures appends { AppendsOf (Rose (N.faults self.old.net) (N.faults self.new.net)) (IsOfOp at.op) at.moment self.old.trail self.new.trail }
        ensures faults { N.faults self.old.net ≤ N.faults self.new.net }
    {
        self.write_too_large(operation, at, why)?;
        self.check_in(at.moment, at.op, operation, false)
    }

    /// Writes that the attempt of a command ended, since it is too large.
    fn write_too_large(
        &mut self,
        operation: &mut Operation,
        at: LentAt,
        why: Unsent,
    ) -> Result<(), Memory>
        requires work { IsAtWork self.old at.moment at.op operation.old }
        requires sends { operation.old.op.next ≡ next_of.Send }
        requires over { IsOver self.old.trail at.op why }
        ensures writing { OnOk result (IsWriting self.new at.moment 3 (owed.CheckedIn at.op false ∷ [])) }
        ensures moves { OnOk result (MovesOne at.op operation.new self.old.trail self.new.trail) }
        ensures appends { AppendsOf ⊥ (IsOfOp at.op) at.moment self.old.trail self.new.trail }
        ensures net { self.new.net ≡ self.old.net }
    {
        let room = room_for(self.closings, 4, 0)?;
        self.wired.reserve(room)?;
        end_too_large(
            &mut self.wired,
            at.moment,
            at.op,
            &mut operation.running,
            why,
        );
        Ok(())
    }
}
