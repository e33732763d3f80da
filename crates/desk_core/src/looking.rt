ghost use Rattle.std.specs.Prelude.{◌≡◌, ◌≢◌, ◌≤◌, ◌<◌, ◌^◌, ◌++◌, ◌∷◌, [], ℕ, true, false, Some, IfOk, OnOk, slice_get, unwrap_or};
ghost use Rattle.net_link.specs.Causes.{Rose};
ghost use Rattle.write_retry.specs.declared.events.Next.TheVariants as next_of;
ghost use Rattle.desk_trail.specs.declared.entry.LookedHow.TheVariants as how_as;
ghost use Rattle.desk_trail.specs.declared.entry.Entry.TheVariants as entry_of;
ghost use Rattle.desk_trail.specs.Facts.{facts_of};
ghost use Rattle.desk_trail.specs.Facts as fact;
ghost use Rattle.desk_trail.specs.Legal.{point_behind};
ghost use Rattle.desk_trail.specs.Looks.{IsLook, deadline, first_look, in_flight, look_owes};
ghost use Rattle.desk_trail.specs.Written.{with_entry};
ghost use Rattle.legal_trail.specs.Recorded.{told_in};
ghost use Rattle.server_look.specs.Inputs.{IsDescribed};
ghost use Rattle.cmd_step.specs.Looked.{servers_behind};
ghost use Rattle.desk_core.specs.Appends.{AppendsAside, AppendsOf, IsOfLook};
ghost use Rattle.desk_core.specs.Commands.{IsAtWork, MovesOne};
ghost use Rattle.desk_core.specs.Kept.{IsReady, IsWriting};
ghost use Rattle.desk_core.specs.Looks.{HasLooked, StillSelects};
ghost use Rattle.desk_core.specs.Picks.{IsPicked, LooksOnce};
ghost use Rattle.desk_core.specs.Steps.{MeansPhase};

use crate::Memory;
use crate::checks::room_for;
use crate::operation::Operation;
use crate::progress::Progress;
use crate::reserving::reserve_beside;
use crate::state::Core;
use cmd_step::{Looking, record_look};
use desk_trail::LookedHow;
use net_link::Net;
use server_look::{Asking, Input, LookAnswer, may_look};
use server_pick::Picker;
use std::alloc::{AllocError, Global};

/// What a look goes by beside the core and the picker.
#[derive(Clone, Copy)]
pub struct Looker<'a> {
    /// How many commands are in flight at each server, by number (Server Selection, operationCount).
    pub in_flight: &'a [u32],
    /// The words that draw two of the servers in the latency window.
    pub words: (u64, u64),
}

/// Whether a look found no server yet.
fn finds_none(how: &LookedHow) -> bool
    ensures yes { result ≡ true → how.now ≡ how_as.NoneFits }
    ensures no { result ≡ false → how.now ≢ how_as.NoneFits }
{
    matches!(how, LookedHow::NoneFits)
}

impl<N: Net> Core<N> {
    /// Until when the command's selection waits for a server, where it looks at a moment (Server Selection,
    /// serverSelectionTimeoutMS).
    fn select_until(&self, moment: u64, op: u32, operation: &Operation) -> u64
        requires work { IsAtWork self.now moment op operation.now }
        ensures first { first_look operation.now moment ≤ 2 ^ 62 }
        ensures deadline { result ≡ deadline self.now.trail.client operation.now moment }
    {
        self.wired.steps();
        trail_laws::commands::each_selection_began_in_time();
        server_look::deadline(self.wired.settings(), &operation.running, moment)
    }

    /// What the command's look comes to (Server Selection, Server Selection Algorithm).
    fn ask_for<P: Picker>(
        &self,
        alloc: Global,
        moment: u64,
        op: u32,
        operation: &Operation,
        looker: Looker<'_>,
        picker: &mut P,
    ) -> Result<LookAnswer, Memory>
        requires work { IsAtWork self.now moment op operation.now }
        requires first { first_look operation.now moment ≤ 2 ^ 62 }
        requires counts { (host : ℕ) → unwrap_or (slice_get looker.in_flight.now host) 0 ≡ in_flight self.now.trail.point.state (Some host) }
        ensures looks { IfOk result (λ l. IsLook self.now.trail.client self.now.trail.point.state moment op looker.entry.words.0 looker.entry.words.1 l.kept l.how) }
        ensures run { IfOk result (λ l. IsPicked P.allows P.follows self.now.trail.client self.now.trail.point.state op operation.now picker.old l.kept picker.new) }
        ensures leads { self.now.trail.point ≡ point_behind self.now.trail.client (facts_of self.now.trail.lists self.now.trail.steps) }
        ensures described { IfOk result (λ l. IsDescribed self.now.trail.point.state.topology.servers self.now.trail.point.state.servers l.how) }
    {
        self.wired.steps();
        trail_laws::hosts::each_host_of_the_topology_has_its_number();
        let Some(command) = self.wired.commands().get(op as usize) else {
            // (cannot be: a command that was not given has no number.)
            return Err(AllocError);
        };
        let input = Input {
            settings: self.wired.settings(),
            topology: self.topology.topology(),
            servers: &self.servers,
            in_flight: looker.in_flight,
        };
        let asking = Asking {
            command,
            running: &operation.running,
            moment,
            words: looker.words,
        };
        if !may_look(input, asking) {
            // (cannot be: at or past the deadline the checks were read first.)
            return Err(AllocError);
        }
        server_look::look(alloc, input, asking, picker)
    }

    /// The look is appended to the trail, and the command and the servers move by it. Where memory is wanting the desk stops. By its
    /// first look there is room for all that the command appends beside its looks.
    fn tell_look(
        &mut self,
        moment: u64,
        op: u32,
        operation: &mut Operation,
        words: (u64, u64),
        answer: LookAnswer,
    ) -> Result<(), Memory>
        requires work { IsAtWork self.old moment op operation.old }
        requires selects { operation.old.op.next ≡ next_of.Select }
        requires looks { IsLook self.old.trail.client self.old.trail.point.state moment op words.0 words.1 answer.kept answer.how }
        requires described { IsDescribed self.old.trail.point.state.topology.servers self.old.trail.point.state.servers answer.how }
        ensures writes { OnOk result (IsWriting self.new moment 0 (look_owes moment answer.how self.old.trail.point.state)) }
        ensures servers { OnOk result (self.new.trail.point.state.servers ≡ servers_behind moment answer.how self.old.trail.point.state.servers) }
        ensures moves { OnOk result (MovesOne op operation.new self.old.trail self.new.trail) }
        ensures tells { OnOk result (self.new.trail.steps
            ≡ with_entry self.old.trail.steps moment (entry_of.Looked op words.0 words.1 answer.kept answer.how)) }
        ensures told { OnOk result (told_in self.new.trail
            ≡ told_in self.old.trail ++ record { at = moment; what = fact.Looked op words.0 words.1 answer.kept answer.how } ∷ []) }
        ensures waits { OnOk result (answer.how ≡ how_as.NoneFits → StillSelects self.old.trail.client moment operation.old operation.new) }
        ensures faults { N.faults self.old.net ≤ N.faults self.new.net }
        ensures appends { AppendsOf ⊥ (IsOfLook op words.0 words.1) moment self.old.trail self.new.trail }
    {
        let room = room_for(self.closings, 1, 0)?;
        let begun = self.begun.saturating_add(operation.begins());
        reserve_beside(&mut self.wired, begun, room)?;
        self.begun = begun;
        operation.has_begun = true;
        let looking = Looking {
            topology: self.topology.topology(),
            op,
            moment,
            words,
        };
        let told = record_look(
            &mut self.wired,
            looking,
            &mut self.servers,
            &mut operation.running,
            answer,
        );
        if told.is_err() {
            // (of the servers of a desk that stopped nothing is kept.)
            self.stopped = true;
            self.servers.clear();
            self.closings = 0;
        }
        told
    }

    /// The checks are read ([`Core::read_checks`]) where the deadline is reached.
    fn read_when_late(&mut self, alloc: Global, moment: u64, until: u64) -> Result<(), Memory>
        requires ready { IsReady self.old moment }
        ensures ok { OnOk result (IsReady self.new moment) }
        ensures early { moment < until → self.new ≡ self.old }
        ensures faults { N.faults self.old.net ≤ N.faults self.new.net }
        ensures appends { AppendsAside (Rose (N.faults self.old.net) (N.faults self.new.net)) moment self.old.trail self.new.trail }
    {
        if moment < until {
            return Ok(());
        }
        self.read_checks(alloc, moment)
    }

    /// A command looks for a server (Server Selection, Server Selection Algorithm). Where none fits yet it waits until its
    /// selection's deadline, and the checks that are due begin; at or past the deadline the checks are read first.
    pub fn look<P: Picker>(
        &mut self,
        alloc: Global,
        moment: u64,
        op: u32,
        operation: &mut Operation,
        looker: Looker<'_>,
        picker: &mut P,
    ) -> Result<Progress, Memory>
        requires work { IsAtWork self.old moment op operation.old }
        requires selects { operation.old.op.next ≡ next_of.Select }
        requires counts { (host : ℕ) → unwrap_or (slice_get looker.in_flight.now host) 0 ≡ in_flight self.old.trail.point.state (Some host) }
        ensures ok { OnOk result (IsReady self.new moment) }
        ensures moves { OnOk result (MovesOne op operation.new self.old.trail self.new.trail) }
        ensures means { IfOk result (MeansPhase self.old.trail.client self.new.trail.point.state moment operation.new) }
        ensures looked { IfOk result (HasLooked P.allows P.follows (Rose (N.faults self.old.net) (N.faults self.new.net)) moment op
            looker.entry.words.0 looker.entry.words.1 operation.old self.old.trail self.new.trail picker.old picker.new) }
        ensures picks { OnOk result (LooksOnce P.allows P.follows moment op self.old.trail self.new.trail picker.old picker.new) }
        ensures faults { N.faults self.old.net ≤ N.faults self.new.net }
        ensures appends { AppendsOf (Rose (N.faults self.old.net) (N.faults self.new.net)) (IsOfLook op looker.entry.words.0 looker.entry.words.1) moment self.old.trail self.new.trail }
    {
        let until = self.select_until(moment, op, operation);
        self.read_when_late(alloc, moment, until)?;
        let answer = self.ask_for(alloc, moment, op, operation, looker, picker)?;
        let waits = finds_none(&answer.how);
        self.tell_look(moment, op, operation, looker.words, answer)?;
        if !waits {
            return Ok(Progress::Done);
        }
        self.begin_owed(alloc, moment)?;
        Ok(Progress::Wait { until })
    }
}
