//! A command takes a turn on the stream of its request, until its attempt ends (Retryable Writes, Executing Retryable Write Commands;
//! URI Options, socketTimeoutMS; SDAM, Error handling).
ghost use Rattle.std.specs.Prelude.{◌≡◌, ◌≢◌, ◌≤◌, ◌<◌, ◌+◌, ◌^◌, ◌++◌, [], ◌∷◌, ℕ, List, None, Some, true, false, length, IfNone, IfOk, IfSome, OnOk};
ghost use Rattle.cmd_step.specs.Ends.{IsBehindRequest};
ghost use Rattle.net_link.specs.Causes.{HasCause, Rose};
ghost use Rattle.topo_rules.specs.Laws.{listed_by};
ghost use Rattle.write_retry.specs.declared.attempt_end.AttemptEnd.TheVariants as attempt;
ghost use Rattle.write_retry.specs.declared.events.Next.TheVariants as next_of;
ghost use Rattle.desk_trail.specs.Attempts.{IsEnd, end_owes, is_failure, refused_by};
ghost use Rattle.desk_trail.specs.Clients.{Client, socket_limit};
ghost use Rattle.desk_trail.specs.Facts as fact;
ghost use Rattle.desk_trail.specs.Legal.{is_replied};
ghost use Rattle.desk_trail.specs.Owed.{Owed};
ghost use Rattle.desk_trail.specs.Owed as owed;
ghost use Rattle.desk_trail.specs.States.{Nothing};
ghost use Rattle.desk_trail.specs.Streams.{stream_at};
ghost use Rattle.wired_trail.specs.Faults.{IsUntold};
ghost use Rattle.wired_trail.specs.Hearing.{TellsHeard};
ghost use Rattle.wired_trail.specs.Lines.{IsThere, KeepsOthers};
ghost use Rattle.desk_core.specs.Appends.{AppendsAside, AppendsOf, IsOfOp};
ghost use Rattle.desk_core.specs.Commands.{IsAtWork, MovesOne};
ghost use Rattle.desk_core.specs.Hearing.{HasComeWith, HearsAttempt, IsNoReply};
ghost use Rattle.desk_core.specs.Kept.{IsReady, IsWriting};
ghost use Rattle.desk_core.specs.Lending.{IsLentTo, IsOnStream};
ghost use Rattle.desk_core.specs.Receiving.{FailsBy, IsHeard, offers};
ghost use Rattle.desk_core.specs.Steps.{MeansPhase};
ghost use Rattle.desk_core.specs.declared.progress.Progress.TheVariants as progress;

use crate::Memory;
use crate::checks::room_for;
use crate::lending::LentAt;
use crate::operation::Operation;
use crate::progress::Progress;
use crate::state::Core;
use cmd_outcome::Reading;
use cmd_reply::{AttemptResult, Waiting, attempt_result};
use cmd_step::{AskedAt, end_attempt};
use conn_uri::Settings;
use net_link::Net;
use server_state::Server;
use std::alloc::{AllocError, Global};
use topo_rules::TopoEvent;
use wired_trail::WiredTrail;
use write_retry::AttemptEnd;

/// Until when the reply is waited for of a request that was queued at a moment (URI Options, socketTimeoutMS); None where that is
/// more than there can be.
fn reply_limit(settings: &Settings, asked: u64) -> Option<u64>
    ensures limit { IfSome result (λ limit. (client : Client) → client.settings ≡ settings.now → limit ≡ asked + socket_limit client) }
{
    asked.checked_add(settings.socket_ms * 1_000)
}

/// Whether an attempt that ended leaves its connection failed (CMAP, Checking In a Connection).
fn has_failed(end: &AttemptEnd) -> bool
    ensures failure { result ≡ is_failure end.now }
{
    match end {
        AttemptEnd::Replied(_) | AttemptEnd::Unsent(_) => false,
        AttemptEnd::Cut | AttemptEnd::Fault | AttemptEnd::TimedOut | AttemptEnd::Bad { .. } => true,
    }
}

/// The event that a reply makes of its server: a state change error, with the reply's topology version (SDAM, Error handling).
fn refused_of(
    alloc: Global,
    server: &Server,
    generation: u64,
    reading: &Reading,
) -> Result<Option<TopoEvent>, Memory>
    requires stays { server.now.has_left ≡ false }
    ensures no_reply { IfOk result (λ event. IfSome event IsNoReply) }
    ensures offers { IfOk result (λ event. refused_by reading.now (Some (record { server = server.now; generation = generation })) ≡ offers event) }
{
    let Some(change) = reading.state else {
        return Ok(None);
    };
    let host = server.host().copy(alloc)?;
    Ok(Some(TopoEvent::Refused {
        host,
        version: reading.version,
        generation,
        shutdown: change.shutdown,
    }))
}

/// The event that the end of an attempt makes of its server, where that stands in the topology still: a state change error, or a
/// network error but a timeout, with the generation of the connection (SDAM, Error handling).
fn offered_by(
    alloc: Global,
    server: &Server,
    generation: u64,
    end: &AttemptEnd,
) -> Result<Option<TopoEvent>, Memory>
    requires behind { IsBehindRequest end.now }
    ensures owes { IfOk result (λ event. (op : ℕ) → end_owes op (Some (record { server = server.now; generation = generation })) end.now
        ≡ offers event ++ owed.CheckedIn op (is_failure end.now) ∷ []) }
    ensures lists_none { IfOk result (λ event. IfSome event (λ e. listed_by e ≡ [])) }
    ensures no_reply { IfOk result (λ event. IfSome event IsNoReply) }
{
    if server.has_left() {
        return Ok(None);
    }
    match end {
        AttemptEnd::Replied(reading) => refused_of(alloc, server, generation, reading),
        AttemptEnd::Cut | AttemptEnd::Fault => {
            let host = server.host().copy(alloc)?;
            Ok(Some(TopoEvent::Broken {
                host,
                generation: Some(generation),
            }))
        }
        AttemptEnd::TimedOut | AttemptEnd::Bad { .. } | AttemptEnd::Unsent(_) => Ok(None),
    }
}

/// A turn on the stream of a request whose reply is waited for: how its attempt ended; None where the reply may still come.
fn hear<N: Net>(
    alloc: Global,
    wired: &mut WiredTrail<N>,
    stream: u64,
    waiting: Waiting,
    moment: u64,
) -> Result<Option<AttemptResult>, Memory>
    requires there { IsThere wired.old.lines stream }
    ensures trail { wired.new.trail ≡ wired.old.trail }
    ensures others { KeepsOthers stream wired.old.lines wired.new.lines }
    ensures early { IfOk result (λ r. IfNone r (moment < waiting.limit)) }
    ensures heard { IfOk result (λ r. IfSome r (IsHeard waiting.limit moment)) }
    ensures faults { N.faults wired.old.net ≤ N.faults wired.new.net }
    ensures hears { N.tells → IfOk result (λ r. IfSome r (HearsAttempt (N.history wired.new.net) wired.new.trail stream waiting moment)) }
    ensures cause { IfOk result (λ r. IfSome r (λ e. HasCause (N.faults wired.old.net) (N.faults wired.new.net) (e.end ≡ attempt.Fault))) }
    ensures counted { IfOk result (λ r. IfSome r (λ e. e.end ≡ attempt.Fault → IsUntold (N.faults wired.new.net) wired.new.trail.steps)) }
{
    let pulled = wired.turn(alloc, stream, waiting.id);
    attempt_result(alloc, waiting, moment, pulled)
}

impl<N: Net> Core<N> {
    /// A command whose request was queued takes a turn on its stream. Where its attempt ends, all that follows is written: its
    /// reply's cluster time, where that is news, the event that the end makes of its server, and that its connection comes back.
    pub fn receive(
        &mut self,
        alloc: Global,
        moment: u64,
        op: u32,
        operation: &mut Operation,
    ) -> Result<Progress, Memory>
        requires work { IsAtWork self.old moment op operation.old }
        requires reads { operation.old.op.next ≡ next_of.Read }
        ensures ok { OnOk result (IsReady self.new moment) }
        ensures moves { OnOk result (MovesOne op operation.new self.old.trail self.new.trail) }
        ensures means { IfOk result (MeansPhase self.old.trail.client self.new.trail.point.state moment operation.new) }
        ensures ended { IfOk result (λ p. p ≡ progress.Done → operation.new.check_out ≡ Nothing) }
        ensures appends { AppendsOf (Rose (N.faults self.old.net) (N.faults self.new.net)) (IsOfOp op) moment self.old.trail self.new.trail }
        ensures faults { N.faults self.old.net ≤ N.faults self.new.net }
    {
        // (cannot be: the request was queued on the stream of a connection that is lent to the command)
        let lent = self.lent_to(&operation.running).ok_or(AllocError)?;
        let stream = self.stream_lent(lent).ok_or(AllocError)?;
        let asked = operation.running.asked().ok_or(AllocError)?;
        let limit = reply_limit(self.wired.settings(), asked).ok_or(AllocError)?;
        let at = LentAt { moment, op, lent };
        self.await_reply(alloc, operation, at, stream, limit)
    }

    /// A turn on the stream of a command's request, whose reply is waited for until a moment.
    fn await_reply(
        &mut self,
        alloc: Global,
        operation: &mut Operation,
        at: LentAt,
        stream: u64,
        limit: u64,
    ) -> Result<Progress, Memory>
        requires work { IsAtWork self.old at.moment at.op operation.old }
        requires reads { operation.old.op.next ≡ next_of.Read }
        requires lent { IsLentTo self.old.trail.point.state operation.old at.lent }
        requires on { IsOnStream self.old.trail.point.state self.old.lines at.lent stream }
        requires until { (asked : ℕ) × (operation.old.asked ≡ Some asked) × (limit ≡ asked + socket_limit self.old.trail.client) }
        ensures ok { OnOk result (IsReady self.new at.moment) }
        ensures moves { OnOk result (MovesOne at.op operation.new self.old.trail self.new.trail) }
        ensures means { IfOk result (MeansPhase self.old.trail.client self.new.trail.point.state at.moment operation.new) }
        ensures ended { IfOk result (λ p. p ≡ progress.Done → operation.new.check_out ≡ Nothing) }
        ensures appends { AppendsOf (Rose (N.faults self.old.net) (N.faults self.new.net)) (IsOfOp at.op) at.moment self.old.trail self.new.trail }
        ensures faults { N.faults self.old.net ≤ N.faults self.new.net }
    {
        let waiting = Waiting {
            id: operation.awaited,
            limit,
        };
        let came = hear(alloc, &mut self.wired, stream, waiting, at.moment)?;
        match came {
            None => Ok(Progress::Wait { until: limit }),
            Some(ended) => {
                self.end_behind(alloc, operation, at, stream, ended)?;
                Ok(Progress::Done)
            }
        }
    }

    /// The attempt of a command ends behind its request, and all that follows is written.
    fn end_behind(
        &mut self,
        alloc: Global,
        operation: &mut Operation,
        at: LentAt,
        stream: u64,
        ended: AttemptResult,
    ) -> Result<(), Memory>
        requires work { IsAtWork self.old at.moment at.op operation.old }
        requires reads { operation.old.op.next ≡ next_of.Read }
        requires lent { IsLentTo self.old.trail.point.state operation.old at.lent }
        requires behind { IsBehindRequest ended.end }
        requires ends { IsEnd self.old.trail.client at.moment ended.end operation.old }
        requires replied { ended.time ≢ None → is_replied ended.end ≡ true }
        requires on { stream_at self.old.trail.point.state at.op ≡ Some stream }
        requires heard { N.tells → TellsHeard (N.history self.old.net) self.old.trail at.moment (fact.Ended at.op ended.end) }
        requires counted { ended.end ≡ attempt.Fault → IsUntold (N.faults self.old.net) self.old.trail.steps }
        requires came { N.tells → HasComeWith (N.history self.old.net) ended.time }
        ensures ok { OnOk result (IsReady self.new at.moment) }
        ensures moves { OnOk result (MovesOne at.op operation.new self.old.trail self.new.trail) }
        ensures free { OnOk result (operation.new.check_out ≡ Nothing) }
        ensures appends { AppendsOf (FailsBy (N.faults self.old.net) (N.faults self.new.net) ended.end) (IsOfOp at.op) at.moment self.old.trail self.new.trail }
        ensures faults { N.faults self.old.net ≤ N.faults self.new.net }
    {
        let LentAt { moment, op, .. } = at;
        let AttemptResult { end, time } = ended;
        let event = self.write_end(alloc, operation, at, stream, end)?;
        self.hear_time(moment, time);
        self.offer_some(alloc, moment, event)?;
        self.make_room(3)?;
        self.check_in(moment, op, operation, has_failed(&end))
    }

    /// Writes that the attempt of a command ended behind its request. The event that this makes of its server must be offered next,
    /// where there is one, and then the connection comes back.
    fn write_end(
        &mut self,
        alloc: Global,
        operation: &mut Operation,
        at: LentAt,
        stream: u64,
        end: AttemptEnd,
    ) -> Result<Option<TopoEvent>, Memory>
        requires work { IsAtWork self.old at.moment at.op operation.old }
        requires reads { operation.old.op.next ≡ next_of.Read }
        requires lent { IsLentTo self.old.trail.point.state operation.old at.lent }
        requires behind { IsBehindRequest end }
        requires ends { IsEnd self.old.trail.client at.moment end operation.old }
        requires on { stream_at self.old.trail.point.state at.op ≡ Some stream }
        requires heard { N.tells → TellsHeard (N.history self.old.net) self.old.trail at.moment (fact.Ended at.op end) }
        requires counted { end ≡ attempt.Fault → IsUntold (N.faults self.old.net) self.old.trail.steps }
        ensures writing { IfOk result (λ event. IsWriting self.new at.moment 4 (offers event ++ owed.CheckedIn at.op (is_failure end) ∷ [])) }
        ensures lists_none { IfOk result (λ event. IfSome event (λ e. listed_by e ≡ [])) }
        ensures no_reply { IfOk result (λ event. IfSome event IsNoReply) }
        ensures count { OnOk result (length self.new.trail.lists.names ≤ 2 ^ 32) }
        ensures reply { OnOk result (self.new.trail.point.is_reply ≡ is_replied end) }
        ensures moves { OnOk result (MovesOne at.op operation.new self.old.trail self.new.trail) }
        ensures net { self.new.net ≡ self.old.net }
        ensures appends { AppendsOf (end ≡ attempt.Fault) (IsOfOp at.op) at.moment self.old.trail self.new.trail }
    {
        let server = &self.servers[at.lent.host as usize];
        let event = offered_by(alloc, server, at.lent.generation, &end)?;
        let room = room_for(self.closings, 5, 0)?;
        self.wired.reserve(room)?;
        let asked = AskedAt {
            op: at.op,
            stream,
            moment: at.moment,
        };
        end_attempt(&mut self.wired, asked, &mut operation.running, end);
        Ok(event)
    }

    /// Offers the event, where there is one, and writes all that must follow it.
    fn offer_some(
        &mut self,
        alloc: Global,
        moment: u64,
        event: Option<TopoEvent>,
    ) -> Result<(), Memory>
        requires writing { (rest : List Owed) × IsWriting self.old moment 0 (offers event ++ rest) }
        requires lists_none { IfSome event (λ e. listed_by e ≡ []) }
        requires no_reply { IfSome event IsNoReply }
        requires count { length self.old.trail.lists.names ≤ 2 ^ 32 }
        ensures ok { (rest : List Owed) → IsWriting self.old moment 0 (offers event ++ rest) → OnOk result (IsWriting self.new moment 0 rest) }
        ensures faults { N.faults self.old.net ≤ N.faults self.new.net }
        ensures appends { AppendsAside ⊥ moment self.old.trail self.new.trail }
    {
        match event {
            Some(event) => self.offer(alloc, moment, event),
            None => Ok(()),
        }
    }

    /// Takes room for so many more entries, in the midst of what must be written; where there is none, the core stops.
    fn make_room(&mut self, entries: usize) -> Result<(), Memory>
        ensures ok { (moment n : ℕ) (debts : List Owed) → IsWriting self.old moment n debts → OnOk result (IsWriting self.new moment entries debts) }
        ensures net { self.new.net ≡ self.old.net }
        ensures appends { (moment : ℕ) → AppendsAside ⊥ moment self.old.trail self.new.trail }
    {
        let Ok(room) = room_for(self.closings, entries, 0) else {
            self.stopped = true;
            return Err(AllocError);
        };
        if let Err(memory) = self.wired.reserve(room) {
            self.stopped = true;
            return Err(memory);
        }
        Ok(())
    }
}
