//! A step of a command: it goes on as far as it can without waiting, through at most one look for a server.
ghost use Rattle.std.specs.Prelude.{◌≡◌, ◌≤◌, IfNone, IfOk, IfSome, OnOk};
ghost use Rattle.net_link.specs.Causes.{Rose};
ghost use Rattle.sess_book.specs.Ids.{id_of};
ghost use Rattle.write_retry.specs.declared.events.Next.TheVariants as next_of;
ghost use Rattle.legal_trail.specs.Recorded.{told_in};
ghost use Rattle.desk_core.specs.Appends.{AppendsOf, IsBy, Tells};
ghost use Rattle.desk_core.specs.Commands.{HasGone, IsInStep, IsShallow};
ghost use Rattle.desk_core.specs.Counts.{IsCounted};
ghost use Rattle.desk_core.specs.Picks.{AsksPicker, IsNoLook, LooksOnce};
ghost use Rattle.desk_core.specs.Steps.{HasFound, MeansGoing, MeansPhase, MeansStep};
ghost use Rattle.desk_core.specs.declared.progress.Progress.TheVariants as progress;

use crate::counts::selected_host;
use crate::looking::Looker;
use crate::operation::Operation;
use crate::parts::Parts;
use crate::progress::Progress;
use crate::state::Core;
use crate::{Memory, Sight, Words};
use net_link::Net;
use server_pick::Picker;
use sess_step::CommandAt;
use std::alloc::Global;

impl<N: Net> Core<N> {
    /// A command goes on, and is counted where it is in flight.
    fn go_counted<P: Picker>(
        &mut self,
        alloc: Global,
        at: CommandAt,
        operation: &mut Operation,
        parts: &mut Parts<P>,
        words: Words,
    ) -> Result<Option<Sight>, Memory>
        requires step { IsInStep self.old at.moment at.op operation.old parts.old.sessions }
        requires counted { IsCounted parts.old.in_flight self.old.trail.point.state.commands }
        requires levels { IsShallow self.old.trail.client at.op }
        ensures gone { OnOk result (HasGone self.old self.new at.moment at.op operation.new parts.new.sessions) }
        ensures counted { OnOk result (IsCounted parts.new.in_flight self.new.trail.point.state.commands) }
        ensures sight { IfOk result (λ r. IfSome r (MeansGoing at.moment at.op (id_of words.c words.d) self.new.trail)) }
        ensures looks { IfOk result (λ r. IfNone r (operation.new.op.next ≡ next_of.Select)) }
        ensures picker { parts.new.picker ≡ parts.old.picker }
        ensures unlooked { Tells IsNoLook (told_in self.old.trail) (told_in self.new.trail) }
        ensures appends { AppendsOf (Rose (N.faults self.old.net) (N.faults self.new.net)) (IsBy at.op words.a words.b (id_of words.c words.d)) at.moment self.old.trail self.new.trail }
        ensures faults { N.faults self.old.net ≤ N.faults self.new.net }
    {
        let before = selected_host(&operation.running);
        let ids = sess_step::Words {
            first: words.c,
            second: words.d,
        };
        let sight = self.go(alloc, at, operation, &mut parts.sessions, ids)?;
        let after = selected_host(&operation.running);
        parts.in_flight.move_one(before, after)?;
        Ok(sight)
    }

    /// A command looks for a server, and is counted where it is in flight.
    fn look_counted<P: Picker>(
        &mut self,
        alloc: Global,
        at: CommandAt,
        operation: &mut Operation,
        parts: &mut Parts<P>,
        words: Words,
    ) -> Result<Progress, Memory>
        requires step { IsInStep self.old at.moment at.op operation.old parts.old.sessions }
        requires counted { IsCounted parts.old.in_flight self.old.trail.point.state.commands }
        requires selects { operation.old.op.next ≡ next_of.Select }
        ensures gone { OnOk result (HasGone self.old self.new at.moment at.op operation.new parts.new.sessions) }
        ensures counted { OnOk result (IsCounted parts.new.in_flight self.new.trail.point.state.commands) }
        ensures means { IfOk result (MeansPhase self.old.trail.client self.new.trail.point.state at.moment operation.new) }
        ensures found { IfOk result (λ p. p ≡ progress.Done → HasFound at.moment at.op words.a words.b self.old.trail self.new.trail) }
        ensures picks { OnOk result (LooksOnce P.allows P.follows at.moment at.op self.old.trail self.new.trail parts.old.picker parts.new.picker) }
        ensures appends { AppendsOf (Rose (N.faults self.old.net) (N.faults self.new.net)) (IsBy at.op words.a words.b (id_of words.c words.d)) at.moment self.old.trail self.new.trail }
        ensures faults { N.faults self.old.net ≤ N.faults self.new.net }
    {
        let before = selected_host(&operation.running);
        let looker = Looker {
            in_flight: parts.in_flight.as_slice(),
            words: (words.a, words.b),
        };
        let looked = self.look(
            alloc,
            at.moment,
            at.op,
            operation,
            looker,
            &mut parts.picker,
        )?;
        let after = selected_host(&operation.running);
        parts.in_flight.move_one(before, after)?;
        Ok(looked)
    }

    /// A command looks for a server, and goes on from there. Where an attempt ended behind the look, another look may follow.
    fn look_and_go<P: Picker>(
        &mut self,
        alloc: Global,
        at: CommandAt,
        operation: &mut Operation,
        parts: &mut Parts<P>,
        words: Words,
    ) -> Result<Sight, Memory>
        requires step { IsInStep self.old at.moment at.op operation.old parts.old.sessions }
        requires counted { IsCounted parts.old.in_flight self.old.trail.point.state.commands }
        requires levels { IsShallow self.old.trail.client at.op }
        requires selects { operation.old.op.next ≡ next_of.Select }
        ensures gone { OnOk result (HasGone self.old self.new at.moment at.op operation.new parts.new.sessions) }
        ensures counted { OnOk result (IsCounted parts.new.in_flight self.new.trail.point.state.commands) }
        ensures sight { IfOk result (MeansStep at.moment at.op words self.old.trail self.new.trail) }
        ensures picks { OnOk result (LooksOnce P.allows P.follows at.moment at.op self.old.trail self.new.trail parts.old.picker parts.new.picker) }
        ensures appends { AppendsOf (Rose (N.faults self.old.net) (N.faults self.new.net)) (IsBy at.op words.a words.b (id_of words.c words.d)) at.moment self.old.trail self.new.trail }
        ensures faults { N.faults self.old.net ≤ N.faults self.new.net }
    {
        match self.look_counted(alloc, at, operation, parts, words)? {
            Progress::Done => match self.go_counted(alloc, at, operation, parts, words)? {
                Some(sight) => Ok(sight),
                None => Ok(Sight::Again),
            },
            Progress::Wait { until } => Ok(Sight::Wait { until }),
            Progress::Again => unreachable!(),
        }
    }

    /// A step of a command.
    pub fn step<P: Picker>(
        &mut self,
        alloc: Global,
        at: CommandAt,
        operation: &mut Operation,
        parts: &mut Parts<P>,
        words: Words,
    ) -> Result<Sight, Memory>
        requires step { IsInStep self.old at.moment at.op operation.old parts.old.sessions }
        requires counted { IsCounted parts.old.in_flight self.old.trail.point.state.commands }
        requires levels { IsShallow self.old.trail.client at.op }
        ensures gone { OnOk result (HasGone self.old self.new at.moment at.op operation.new parts.new.sessions) }
        ensures counted { OnOk result (IsCounted parts.new.in_flight self.new.trail.point.state.commands) }
        ensures sight { IfOk result (MeansStep at.moment at.op words self.old.trail self.new.trail) }
        ensures asks { OnOk result (AsksPicker P.allows P.follows at.moment at.op self.old.trail self.new.trail parts.old.picker parts.new.picker) }
        ensures appends { AppendsOf (Rose (N.faults self.old.net) (N.faults self.new.net)) (IsBy at.op words.a words.b (id_of words.c words.d)) at.moment self.old.trail self.new.trail }
        ensures faults { N.faults self.old.net ≤ N.faults self.new.net }
    {
        match self.go_counted(alloc, at, operation, parts, words)? {
            Some(sight) => Ok(sight),
            None => self.look_and_go(alloc, at, operation, parts, words),
        }
    }
}
