ghost use Rattle.std.specs.Prelude.{◌≡◌, ◌≤◌, ℕ, OnOk};
ghost use Rattle.desk_trail.specs.Attempts.{IsToEnter};
ghost use Rattle.desk_trail.specs.States.{Waits};
ghost use Rattle.net_link.specs.Causes.{Rose};
ghost use Rattle.desk_core.specs.Appends.{AppendsOf, IsOfOp};
ghost use Rattle.desk_core.specs.Commands.{IsAtWork, MovesOne};
ghost use Rattle.desk_core.specs.Kept.{IsReady};

use crate::Memory;
use crate::checks::room_for;
use crate::closings::closing_of;
use crate::operation::Operation;
use crate::pools::few;
use crate::state::Core;
use cmd_step::At;
use net_link::Net;
use std::alloc::AllocError;

impl<N: Net> Core<N> {
    /// The ticket of a command joins the line of the pool of the server that it chose (CMAP, Checking Out a Connection).
    pub fn enter(
        &mut self,
        moment: u64,
        op: u32,
        host: u32,
        operation: &mut Operation,
    ) -> Result<(), Memory>
        requires work { IsAtWork self.old moment op operation.old }
        requires chose { IsToEnter host operation.old }
        ensures ok { OnOk result (IsReady self.new moment) }
        ensures moves { OnOk result (MovesOne op operation.new self.old.trail self.new.trail) }
        ensures appends { AppendsOf (Rose (N.faults self.old.net) (N.faults self.new.net)) (IsOfOp op) moment self.old.trail self.new.trail }
        ensures faults { N.faults self.old.net ≤ N.faults self.new.net }
        ensures waits { OnOk result ((ticket : ℕ) × (operation.new.check_out ≡ Waits host ticket)) }
        ensures next { OnOk result (operation.new.op.next ≡ operation.old.op.next) }
    {
        // (cannot be: a command chose a server that was named)
        if self.servers.len() <= host as usize {
            return Err(AllocError);
        }
        let room = room_for(self.closings, 1, 0)?;
        self.wired.reserve(room)?;
        few(self.wired.steps());
        let at = At { op, host, moment };
        let server = &mut self.servers[host as usize];
        let before = closing_of(server);
        cmd_step::enter(&mut self.wired, at, server, &mut operation.running)?;
        let behind = closing_of(server);
        self.closings = self.closings - before + behind;
        Ok(())
    }
}
