//! A connection comes back to its pool (CMAP, Checking In a Connection).
ghost use Rattle.std.specs.Prelude.{◌≡◌, ◌≤◌, ◌<◌, ◌+◌, ◌^◌, [], ◌∷◌, Some, OnOk, slice_get};
ghost use Rattle.net_link.specs.Causes.{Rose};
ghost use Rattle.desk_trail.specs.Owed as owed;
ghost use Rattle.desk_trail.specs.States.{Nothing};
ghost use Rattle.desk_core.specs.Appends.{AppendsOf, IsOfOp};
ghost use Rattle.desk_core.specs.Commands.{MovesOne};
ghost use Rattle.desk_core.specs.Kept.{IsReady, IsWriting};
ghost use Rattle.desk_core.specs.Lending.{IsLentTo};

use crate::Memory;
use crate::closings::closing_of;
use crate::lending::{Lent, LentAt};
use crate::operation::Operation;
use crate::state::Core;
use cmd_step::{At, Back, check_in};
use net_link::Net;
use std::alloc::AllocError;

impl<N: Net> Core<N> {
    /// Behind the end of an attempt the command's connection comes back to its pool, which must come next: it is available again, or
    /// it is shut (CMAP, Checking In a Connection). Where it has none, which cannot be, the core stops.
    pub fn check_in(
        &mut self,
        moment: u64,
        op: u32,
        operation: &mut Operation,
        errored: bool,
    ) -> Result<(), Memory>
        requires owes { IsWriting self.old moment 3 (owed.CheckedIn op errored ∷ []) }
        requires there { slice_get self.old.trail.point.state.commands op ≡ Some operation.old }
        ensures ok { OnOk result (IsReady self.new moment) }
        ensures moves { OnOk result (MovesOne op operation.new self.old.trail self.new.trail) }
        ensures next { OnOk result (operation.new.op ≡ operation.old.op) }
        ensures free { OnOk result (operation.new.check_out ≡ Nothing) }
        ensures appends { AppendsOf (Rose (N.faults self.old.net) (N.faults self.new.net)) (IsOfOp op) moment self.old.trail self.new.trail }
        ensures faults { N.faults self.old.net ≤ N.faults self.new.net }
    {
        let Some(lent) = self.lent_to(&operation.running) else {
            // (cannot be: the connection on which the attempt ended is lent to the command)
            self.stopped = true;
            return Err(AllocError);
        };
        if self.closings == usize::MAX {
            // (cannot be: there is room for an entry more)
            self.stopped = true;
            return Err(AllocError);
        }
        let at = LentAt { moment, op, lent };
        self.give_back(operation, at, errored);
        Ok(())
    }

    /// The connection comes back.
    fn give_back(&mut self, operation: &mut Operation, at: LentAt, errored: bool)
        requires owes { IsWriting self.old at.moment 3 (owed.CheckedIn at.op errored ∷ []) }
        requires there { slice_get self.old.trail.point.state.commands at.op ≡ Some operation.old }
        requires lent { IsLentTo self.old.trail.point.state operation.old at.lent }
        requires counts { self.old.closings + 1 < 2 ^ 64 }
        ensures ready { IsReady self.new at.moment }
        ensures moves { MovesOne at.op operation.new self.old.trail self.new.trail }
        ensures next { operation.new.op ≡ operation.old.op }
        ensures free { operation.new.check_out ≡ Nothing }
        ensures appends { AppendsOf (Rose (N.faults self.old.net) (N.faults self.new.net)) (IsOfOp at.op) at.moment self.old.trail self.new.trail }
        ensures faults { N.faults self.old.net ≤ N.faults self.new.net }
    {
        let LentAt { moment, op, lent } = at;
        let Lent { host, conn, .. } = lent;
        let place = At { op, host, moment };
        let back = Back { conn, errored };
        let server = &mut self.servers[host as usize];
        let before = closing_of(server);
        check_in(&mut self.wired, place, server, &mut operation.running, back);
        let behind = closing_of(server);
        self.closings = self.closings - before + behind;
    }
}
