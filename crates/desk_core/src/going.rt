//! A command goes on, from one phase to the next, as far as it can without waiting (CMAP, Checking Out a Connection; Retryable
//! Writes, Executing Retryable Write Commands).
ghost use Rattle.std.specs.Prelude.{◌≡◌, ◌≤◌, true, false, IfNone, IfOk, IfSome, OnOk, slice_set};
ghost use Rattle.bson_doc.specs.declared.ids.Lsid.{Lsid};
ghost use Rattle.net_link.specs.Causes.{Rose};
ghost use Rattle.sess_book.specs.Ids.{id_of};
ghost use Rattle.write_retry.specs.declared.events.Next.TheVariants as next_of;
ghost use Rattle.sess_step.specs.Choices.{AreIds};
ghost use Rattle.desk_core.specs.Appends.{AppendsOf, IsOfLease, IsOfOp};
ghost use Rattle.desk_core.specs.Commands.{HasGone, IsAtWork, IsInStep, IsShallow, MovesOne};
ghost use Rattle.desk_core.specs.Kept.{IsReady};
ghost use Rattle.desk_core.specs.Steps.{MeansEntry, MeansGoing, MeansPhase};

use crate::operation::Operation;
use crate::progress::Progress;
use crate::state::Core;
use crate::{Memory, Sight};
use cmd_state::CheckOut;
use net_link::Net;
use sess_step::{CommandAt, LeaseBook, Words};
use std::alloc::{AllocError, Global};
use write_retry::Next;

impl<N: Net> Core<N> {
    /// A command that chose a server and is with no pool leases a session, draws its number, and joins the line of that server's
    /// pool.
    fn enter_pool(
        &mut self,
        at: CommandAt,
        operation: &mut Operation,
        sessions: &mut LeaseBook,
        words: Words,
    ) -> Result<Progress, Memory>
        requires step { IsInStep self.old at.moment at.op operation.old sessions.old }
        ensures gone { OnOk result (HasGone self.old self.new at.moment at.op operation.new sessions.new) }
        ensures means { IfOk result (MeansEntry self.old.trail.client self.new.trail.point.state at.moment (id_of words.first words.second) operation.new) }
        ensures appends { AppendsOf (Rose (N.faults self.old.net) (N.faults self.new.net)) (IsOfLease at.op (id_of words.first words.second)) at.moment self.old.trail self.new.trail }
        ensures faults { N.faults self.old.net ≤ N.faults self.new.net }
    {
        let Next::CheckOut { host } = operation.running.next() else {
            return Ok(Progress::Done);
        };
        let CheckOut::Nothing = operation.running.check_out() else {
            return Ok(Progress::Done);
        };
        let equipped = self.equip(at.moment, at.op, operation, sessions, words)?;
        if equipped == Progress::Done {
            self.enter(at.moment, at.op, host, operation)?;
        }
        Ok(equipped)
    }

    /// A command that waits in a line gets what the pool has for it.
    fn leave_line(
        &mut self,
        alloc: Global,
        at: CommandAt,
        operation: &mut Operation,
    ) -> Result<Progress, Memory>
        requires work { IsAtWork self.old at.moment at.op operation.old }
        ensures ok { OnOk result (IsReady self.new at.moment) }
        ensures moves { OnOk result (MovesOne at.op operation.new self.old.trail self.new.trail) }
        ensures means { IfOk result (MeansPhase self.old.trail.client self.new.trail.point.state at.moment operation.new) }
        ensures appends { AppendsOf (Rose (N.faults self.old.net) (N.faults self.new.net)) (IsOfOp at.op) at.moment self.old.trail self.new.trail }
        ensures faults { N.faults self.old.net ≤ N.faults self.new.net }
    {
        let CheckOut::Waits { .. } = operation.running.check_out() else {
            return Ok(Progress::Done);
        };
        self.check_out(alloc, at.moment, at.op, operation)
    }

    /// A command that dialled a connection drives its greeting.
    fn drive_greeting(
        &mut self,
        alloc: Global,
        at: CommandAt,
        operation: &mut Operation,
    ) -> Result<Progress, Memory>
        requires work { IsAtWork self.old at.moment at.op operation.old }
        ensures ok { OnOk result (IsReady self.new at.moment) }
        ensures moves { OnOk result (MovesOne at.op operation.new self.old.trail self.new.trail) }
        ensures means { IfOk result (MeansPhase self.old.trail.client self.new.trail.point.state at.moment operation.new) }
        ensures appends { AppendsOf (Rose (N.faults self.old.net) (N.faults self.new.net)) (IsOfOp at.op) at.moment self.old.trail self.new.trail }
        ensures faults { N.faults self.old.net ≤ N.faults self.new.net }
    {
        let CheckOut::Dials { .. } = operation.running.check_out() else {
            return Ok(Progress::Done);
        };
        self.greet(alloc, at.moment, at.op, operation)
    }

    /// A command that waits for a connection gets one, where its pool has or dials one and that is established.
    fn connect(
        &mut self,
        alloc: Global,
        at: CommandAt,
        operation: &mut Operation,
    ) -> Result<Progress, Memory>
        requires work { IsAtWork self.old at.moment at.op operation.old }
        ensures ok { OnOk result (IsReady self.new at.moment) }
        ensures moves { OnOk result (MovesOne at.op operation.new self.old.trail self.new.trail) }
        ensures means { IfOk result (MeansPhase self.old.trail.client self.new.trail.point.state at.moment operation.new) }
        ensures appends { AppendsOf (Rose (N.faults self.old.net) (N.faults self.new.net)) (IsOfOp at.op) at.moment self.old.trail self.new.trail }
        ensures faults { N.faults self.old.net ≤ N.faults self.new.net }
    {
        let answer = self.leave_line(alloc, at, operation)?;
        if answer == Progress::Done {
            self.drive_greeting(alloc, at, operation)
        } else {
            Ok(answer)
        }
    }

    /// A command that has a connection sends its request.
    fn request(
        &mut self,
        alloc: Global,
        at: CommandAt,
        operation: &mut Operation,
    ) -> Result<(), Memory>
        requires work { IsAtWork self.old at.moment at.op operation.old }
        requires ids { AreIds self.old.trail.lists.sessions self.old.trail.point.state.sessions }
        requires levels { IsShallow self.old.trail.client at.op }
        ensures ok { OnOk result (IsReady self.new at.moment) }
        ensures moves { OnOk result (MovesOne at.op operation.new self.old.trail self.new.trail) }
        ensures appends { AppendsOf (Rose (N.faults self.old.net) (N.faults self.new.net)) (IsOfOp at.op) at.moment self.old.trail self.new.trail }
        ensures faults { N.faults self.old.net ≤ N.faults self.new.net }
    {
        let Next::Send = operation.running.next() else {
            return Ok(());
        };
        self.send(alloc, at.moment, at.op, operation)
    }

    /// A command that sent its request takes the reply, where that came.
    fn reply(
        &mut self,
        alloc: Global,
        at: CommandAt,
        operation: &mut Operation,
    ) -> Result<Progress, Memory>
        requires work { IsAtWork self.old at.moment at.op operation.old }
        ensures ok { OnOk result (IsReady self.new at.moment) }
        ensures moves { OnOk result (MovesOne at.op operation.new self.old.trail self.new.trail) }
        ensures means { IfOk result (MeansPhase self.old.trail.client self.new.trail.point.state at.moment operation.new) }
        ensures appends { AppendsOf (Rose (N.faults self.old.net) (N.faults self.new.net)) (IsOfOp at.op) at.moment self.old.trail self.new.trail }
        ensures faults { N.faults self.old.net ≤ N.faults self.new.net }
    {
        let Next::Read = operation.running.next() else {
            return Ok(Progress::Done);
        };
        self.receive(alloc, at.moment, at.op, operation)
    }

    /// A command that has a connection sends its request and takes the reply.
    fn exchange(
        &mut self,
        alloc: Global,
        at: CommandAt,
        operation: &mut Operation,
    ) -> Result<Progress, Memory>
        requires work { IsAtWork self.old at.moment at.op operation.old }
        requires ids { AreIds self.old.trail.lists.sessions self.old.trail.point.state.sessions }
        requires levels { IsShallow self.old.trail.client at.op }
        ensures ok { OnOk result (IsReady self.new at.moment) }
        ensures moves { OnOk result (MovesOne at.op operation.new self.old.trail self.new.trail) }
        ensures means { IfOk result (MeansPhase self.old.trail.client self.new.trail.point.state at.moment operation.new) }
        ensures appends { AppendsOf (Rose (N.faults self.old.net) (N.faults self.new.net)) (IsOfOp at.op) at.moment self.old.trail self.new.trail }
        ensures faults { N.faults self.old.net ≤ N.faults self.new.net }
    {
        self.request(alloc, at, operation)?;
        self.reply(alloc, at, operation)
    }

    /// A command drives its attempt: it gets a connection, sends its request and takes the reply.
    fn attempt(
        &mut self,
        alloc: Global,
        at: CommandAt,
        operation: &mut Operation,
    ) -> Result<Progress, Memory>
        requires work { IsAtWork self.old at.moment at.op operation.old }
        requires ids { AreIds self.old.trail.lists.sessions self.old.trail.point.state.sessions }
        requires levels { IsShallow self.old.trail.client at.op }
        ensures ok { OnOk result (IsReady self.new at.moment) }
        ensures moves { OnOk result (MovesOne at.op operation.new self.old.trail self.new.trail) }
        ensures means { IfOk result (MeansPhase self.old.trail.client self.new.trail.point.state at.moment operation.new) }
        ensures appends { AppendsOf (Rose (N.faults self.old.net) (N.faults self.new.net)) (IsOfOp at.op) at.moment self.old.trail self.new.trail }
        ensures faults { N.faults self.old.net ≤ N.faults self.new.net }
    {
        let connected = self.connect(alloc, at, operation)?;
        if connected == Progress::Done {
            self.exchange(alloc, at, operation)
        } else {
            Ok(connected)
        }
    }

    /// A command that is to be answered is; None where it is to look for a server next.
    fn conclude(
        &mut self,
        at: CommandAt,
        operation: &mut Operation,
        sessions: &mut LeaseBook,
    ) -> Result<Option<Sight>, Memory>
        requires step { IsInStep self.old at.moment at.op operation.old sessions.old }
        ensures gone { OnOk result (HasGone self.old self.new at.moment at.op operation.new sessions.new) }
        ensures sight { (own : Lsid) → IfOk result (λ r. IfSome r (MeansGoing at.moment at.op own self.new.trail)) }
        ensures looks { IfOk result (λ r. IfNone r (operation.new.op.next ≡ next_of.Select)) }
        ensures appends { AppendsOf (Rose (N.faults self.old.net) (N.faults self.new.net)) (IsOfOp at.op) at.moment self.old.trail self.new.trail }
        ensures faults { N.faults self.old.net ≤ N.faults self.new.net }
    {
        match operation.running.next() {
            Next::Answer(_) => {
                self.answer(at.moment, at.op, operation, sessions)?;
                Ok(Some(Sight::Answered))
            }
            Next::Select => Ok(None),
            // (cannot be: behind an attempt that is over a command looks or is answered)
            Next::CheckOut { .. } | Next::Send | Next::Read => Err(AllocError),
        }
    }

    /// A command that chose a server drives its attempt, the first phase of which is to join a line.
    fn begin_attempt(
        &mut self,
        alloc: Global,
        at: CommandAt,
        operation: &mut Operation,
        sessions: &mut LeaseBook,
        words: Words,
    ) -> Result<Progress, Memory>
        requires step { IsInStep self.old at.moment at.op operation.old sessions.old }
        requires levels { IsShallow self.old.trail.client at.op }
        ensures gone { OnOk result (HasGone self.old self.new at.moment at.op operation.new sessions.new) }
        ensures means { IfOk result (MeansEntry self.old.trail.client self.new.trail.point.state at.moment (id_of words.first words.second) operation.new) }
        ensures appends { AppendsOf (Rose (N.faults self.old.net) (N.faults self.new.net)) (IsOfLease at.op (id_of words.first words.second)) at.moment self.old.trail self.new.trail }
        ensures faults { N.faults self.old.net ≤ N.faults self.new.net }
    {
        let entered = self.enter_pool(at, operation, sessions, words)?;
        if entered == Progress::Done {
            self.attempt(alloc, at, operation)
        } else {
            Ok(entered)
        }
    }

    /// A command goes on as far as it can without a look for a server: None where that is what it is to do next.
    pub fn go(
        &mut self,
        alloc: Global,
        at: CommandAt,
        operation: &mut Operation,
        sessions: &mut LeaseBook,
        words: Words,
    ) -> Result<Option<Sight>, Memory>
        requires step { IsInStep self.old at.moment at.op operation.old sessions.old }
        requires levels { IsShallow self.old.trail.client at.op }
        ensures gone { OnOk result (HasGone self.old self.new at.moment at.op operation.new sessions.new) }
        ensures sight { IfOk result (λ r. IfSome r (MeansGoing at.moment at.op (id_of words.first words.second) self.new.trail)) }
        ensures looks { IfOk result (λ r. IfNone r (operation.new.op.next ≡ next_of.Select)) }
        ensures appends { AppendsOf (Rose (N.faults self.old.net) (N.faults self.new.net)) (IsOfLease at.op (id_of words.first words.second)) at.moment self.old.trail self.new.trail }
        ensures faults { N.faults self.old.net ≤ N.faults self.new.net }
    {
        match self.begin_attempt(alloc, at, operation, sessions, words)? {
            Progress::Done => self.conclude(at, operation, sessions),
            Progress::Wait { until } => Ok(Some(Sight::Wait { until })),
            Progress::Again => Ok(Some(Sight::Again)),
        }
    }
}
