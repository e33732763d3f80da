//! What a command needs at its choice: its session, and its transaction number (Driver Sessions; Retryable Writes).
ghost use Rattle.std.specs.Prelude.{◌≡◌, ◌≤◌, ◌+◌, ℕ, true, false, None, Some, IfOk, OnOk, is_some, slice_get};
ghost use Rattle.net_link.specs.Causes.{Rose};
ghost use Rattle.sess_book.specs.Ids.{id_of};
ghost use Rattle.desk_trail.specs.Leases.{IsEquipped, is_at_choice, minutes_needed, needs_number};
ghost use Rattle.desk_trail.specs.States.{CommandState};
ghost use Rattle.sess_step.specs.Choices.{AreIds};
ghost use Rattle.sess_step.specs.Moves.{IsRepeated};
ghost use Rattle.trail_laws.specs.Holding.{IsHeldFor};
ghost use Rattle.desk_core.specs.Appends.{AppendsOf, IsOfLease, IsOfOp};
ghost use Rattle.desk_core.specs.Commands.{IsAtWork, MovesLease};
ghost use Rattle.desk_core.specs.Equips.{KeepsCourse};
ghost use Rattle.desk_core.specs.Kept.{IsReady};
ghost use Rattle.desk_core.specs.Steps.{MeansEntry};
ghost use Rattle.desk_core.specs.declared.progress.Progress.TheVariants as progress;

use crate::Memory;
use crate::checks::room_for;
use crate::operation::Operation;
use crate::progress::Progress;
use crate::state::Core;
use cmd_state::RunningCommand;
use desk_trail::Room;
use net_link::Net;
use sess_step::{CommandAt, LeaseAnswer, LeaseBook, Words, draw, lease};
use std::alloc::AllocError;
use wired_trail::WiredTrail;

/// Room for the entry of a lease with its session, beside the closings of so many pools.
fn room_for_lease(closings: usize) -> Result<Room, Memory>
    ensures { IfOk result (λ room. room ≡ record { names = 0; events = 0; sessions = 1; requests = 0; steps = closings + 1 }) }
{
    let room = room_for(closings, 1, 0)?;
    Ok(Room {
        sessions: 1,
        ..room
    })
}

/// The session of each command of the trail's client is out, and undrawn where the command has no number.
pub(crate) fn each_session_is_held<N: Net>(wired: &WiredTrail<N>)
    ensures held { (op : ℕ) (c : CommandState) (place : ℕ) → slice_get wired.now.trail.point.state.commands op ≡ Some c → c.session ≡ Some place
        → IsHeldFor wired.now.trail.point.state.sessions place c.number }
{
    wired.steps();
    trail_laws::sessions::each_session_of_a_command_is_held();
}

impl<N: Net> Core<N> {
    /// A command at its choice leases the session that it needs. False where it found none, since the id of the words was used
    /// before: nothing changed, and it leases one by other words.
    fn lease_one(
        &mut self,
        at: CommandAt,
        running: &mut RunningCommand,
        sessions: &mut LeaseBook,
        words: Words,
    ) -> Result<bool, Memory>
        requires work { IsAtWork self.old at.moment at.op running.old }
        requires chose { is_at_choice running.old.op.next ≡ true }
        requires book { self.old.trail.point.state.sessions ≡ sessions.old }
        requires ids { AreIds self.old.trail.lists.sessions sessions.old }
        requires late { sessions.old.last ≤ at.moment }
        ensures ok { OnOk result (IsReady self.new at.moment) }
        ensures moves { OnOk result (MovesLease at.op running.new sessions.new self.old.trail self.new.trail) }
        ensures late { OnOk result (sessions.new.last ≤ at.moment) }
        ensures leased { IfOk result (λ r. r ≡ true → minutes_needed running.new ≡ None) }
        ensures repeated { IfOk result (λ r. r ≡ false → (is_at_choice running.new.op.next ≡ true)
            × IsRepeated sessions.new at.moment running.new (id_of words.first words.second)) }
        ensures kept { KeepsCourse running.old running.new }
        ensures appends { AppendsOf ⊥ (IsOfLease at.op (id_of words.first words.second)) at.moment self.old.trail self.new.trail }
        ensures net { self.new.net ≡ self.old.net }
    {
        if running.minutes_needed().is_none() {
            return Ok(true);
        }
        let room = room_for_lease(self.closings)?;
        self.wired.reserve(room)?;
        match lease(&mut self.wired, sessions, at, running, words)? {
            LeaseAnswer::Leased => Ok(true),
            LeaseAnswer::Repeated(_) => Ok(false),
        }
    }

    /// A command at its choice draws the number that it needs.
    fn draw_one(
        &mut self,
        at: CommandAt,
        running: &mut RunningCommand,
        sessions: &mut LeaseBook,
    ) -> Result<(), Memory>
        requires work { IsAtWork self.old at.moment at.op running.old }
        requires chose { is_at_choice running.old.op.next ≡ true }
        requires book { self.old.trail.point.state.sessions ≡ sessions.old }
        requires ids { AreIds self.old.trail.lists.sessions sessions.old }
        ensures ok { OnOk result (IsReady self.new at.moment) }
        ensures moves { OnOk result (MovesLease at.op running.new sessions.new self.old.trail self.new.trail) }
        ensures late { OnOk result (sessions.new.last ≡ sessions.old.last) }
        ensures drew { OnOk result (needs_number running.new ≡ false) }
        ensures minutes { OnOk result (minutes_needed running.new ≡ minutes_needed running.old) }
        ensures kept { KeepsCourse running.old running.new }
        ensures appends { AppendsOf ⊥ (IsOfOp at.op) at.moment self.old.trail self.new.trail }
        ensures net { self.new.net ≡ self.old.net }
    {
        let needed = running.needs_number();
        if !needed {
            return Ok(());
        }
        // (cannot be: a number is drawn only at a server that has sessions)
        if running.session().is_none() {
            return Err(AllocError);
        }
        let room = room_for(self.closings, 1, 0)?;
        self.wired.reserve(room)?;
        each_session_is_held(&self.wired);
        draw(&mut self.wired, sessions, at, running);
        Ok(())
    }

    /// A command at its choice gets what it needs to ask its pool: it leases the session that it needs (Driver Sessions, implicit
    /// sessions) and draws the number that it needs (Retryable Writes, Generating Transaction Identifiers). Again where the id of
    /// the words was used before.
    pub fn equip(
        &mut self,
        moment: u64,
        op: u32,
        operation: &mut Operation,
        sessions: &mut LeaseBook,
        words: Words,
    ) -> Result<Progress, Memory>
        requires work { IsAtWork self.old moment op operation.old }
        requires chose { is_at_choice operation.old.op.next ≡ true }
        requires book { self.old.trail.point.state.sessions ≡ sessions.old }
        requires ids { AreIds self.old.trail.lists.sessions sessions.old }
        requires late { sessions.old.last ≤ moment }
        ensures ok { OnOk result (IsReady self.new moment) }
        ensures moves { OnOk result (MovesLease op operation.new sessions.new self.old.trail self.new.trail) }
        ensures late { OnOk result (sessions.new.last ≤ moment) }
        ensures equipped { IfOk result (λ p. p ≡ progress.Done → IsEquipped operation.new) }
        ensures kept { KeepsCourse operation.old operation.new }
        ensures means { IfOk result (MeansEntry self.old.trail.client self.new.trail.point.state moment (id_of words.first words.second) operation.new) }
        ensures appends { AppendsOf (Rose (N.faults self.old.net) (N.faults self.new.net)) (IsOfLease op (id_of words.first words.second)) moment self.old.trail self.new.trail }
        ensures faults { N.faults self.old.net ≤ N.faults self.new.net }
        ensures net { self.new.net ≡ self.old.net }
    {
        let at = CommandAt { op, moment };
        let running = &mut operation.running;
        if !self.lease_one(at, running, sessions, words)? {
            return Ok(Progress::Again);
        }
        self.draw_one(at, running, sessions)?;
        Ok(Progress::Done)
    }
}
