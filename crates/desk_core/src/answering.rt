//! A command is answered, and gives its session back (Retryable Writes, Executing Retryable Write Commands; Driver Sessions).
ghost use Rattle.std.specs.Prelude.{◌≡◌, ◌≤◌, true, OnOk};
ghost use Rattle.net_link.specs.Causes.{Rose};
ghost use Rattle.write_retry.specs.declared.events.Next.TheVariants as next_of;
ghost use Rattle.write_retry.specs.declared.outcome.Outcome.{Outcome as Came};
ghost use Rattle.sess_step.specs.Choices.{AreIds};
ghost use Rattle.desk_core.specs.Appends.{AppendsOf, IsOfOp};
ghost use Rattle.desk_core.specs.Commands.{IsAtWork, MovesLease};
ghost use Rattle.desk_core.specs.Kept.{IsReady};

use crate::Memory;
use crate::checks::room_for;
use crate::equipping::each_session_is_held;
use crate::operation::Operation;
use crate::state::Core;
use cmd_state::CheckOut;
use cmd_step::finish;
use net_link::Net;
use sess_step::{CommandAt, LeaseBook, give_back};
use std::alloc::AllocError;
use write_retry::Next;

impl<N: Net> Core<N> {
    /// A command that is to be answered is finished with its outcome, and gives its session back where it holds one: dirty where an
    /// attempt failed once its request was queued (Driver Sessions, returning a session).
    pub fn answer(
        &mut self,
        moment: u64,
        op: u32,
        operation: &mut Operation,
        sessions: &mut LeaseBook,
    ) -> Result<(), Memory>
        requires work { IsAtWork self.old moment op operation.old }
        requires book { self.old.trail.point.state.sessions ≡ sessions.old }
        requires ids { AreIds self.old.trail.lists.sessions sessions.old }
        requires late { sessions.old.last ≤ moment }
        requires answers { (outcome : Came) × (operation.old.op.next ≡ next_of.Answer outcome) }
        ensures ok { OnOk result (IsReady self.new moment) }
        ensures moves { OnOk result (MovesLease op operation.new sessions.new self.old.trail self.new.trail) }
        ensures late { OnOk result (sessions.new.last ≤ moment) }
        ensures finished { OnOk result (operation.new.is_finished ≡ true) }
        ensures appends { AppendsOf (Rose (N.faults self.old.net) (N.faults self.new.net)) (IsOfOp op) moment self.old.trail self.new.trail }
        ensures faults { N.faults self.old.net ≤ N.faults self.new.net }
        ensures net { self.new.net ≡ self.old.net }
    {
        let running = &mut operation.running;
        let Next::Answer(outcome) = running.next() else {
            unreachable!()
        };
        // (cannot be: it checked its connection in, and is answered once)
        if running.check_out() != CheckOut::Nothing || running.is_finished() {
            return Err(AllocError);
        }
        let room = room_for(self.closings, 2, 0)?;
        self.wired.reserve(room)?;
        finish(&mut self.wired, moment, op, running, outcome);
        // (it began, since only a look leads to an answer)
        self.begun = self.begun.saturating_sub(1);
        let session = running.session();
        if session.is_none() {
            return Ok(());
        }
        each_session_is_held(&self.wired);
        give_back(&mut self.wired, sessions, CommandAt { op, moment }, running);
        Ok(())
    }
}
