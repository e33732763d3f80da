ghost use Rattle.std.specs.Prelude.{◌≤◌, ℕ, OnOk};
ghost use Rattle.net_link.specs.Causes.{Rose};
ghost use Rattle.desk_trail.specs.Checks.{AtServer, Runs};
ghost use Rattle.desk_core.specs.Appends.{AppendsAside};
ghost use Rattle.desk_core.specs.Kept.{IsReady};
ghost use Rattle.desk_core.specs.Looks.{IsRead};

use crate::checks::room_for;
use crate::reserving::reserve_beside;
use crate::state::Core;
use crate::{Memory, Sight};
use desk_trail::Entry;
use net_link::Net;
use std::alloc::Global;

impl<N: Net> Core<N> {
    /// The check that runs of a server is noted as seen without an answer.
    fn note_dry(&mut self, moment: u64, host: u32) -> Result<(), Memory>
        requires ready { IsReady self.old moment }
        requires runs { AtServer self.old.trail.point.state host (λ s. (began : ℕ) × Runs began s) }
        ensures ok { OnOk result (IsReady self.new moment) }
        ensures reads { OnOk result (IsRead self.new.trail.point.state moment host) }
        ensures faults { N.faults self.old.net ≤ N.faults self.new.net }
        ensures appends { AppendsAside ⊥ moment self.old.trail self.new.trail }
    {
        let room = room_for(self.closings, 1, 0)?;
        reserve_beside(&mut self.wired, self.begun, room)?;
        self.wired.append(moment, Entry::CheckDry { host });
        let server = &mut self.servers[host as usize];
        server.find_dry(moment);
        Ok(())
    }

    /// Begins, drives or ends the check of a server, and notes one that still waits as seen without an answer.
    fn read_check(&mut self, alloc: Global, moment: u64, host: u32) -> Result<(), Memory>
        requires ready { IsReady self.old moment }
        ensures ok { OnOk result (IsReady self.new moment) }
        ensures reads { OnOk result (IsRead self.new.trail.point.state moment host) }
        ensures faults { N.faults self.old.net ≤ N.faults self.new.net }
        ensures appends { AppendsAside (Rose (N.faults self.old.net) (N.faults self.new.net)) moment self.old.trail self.new.trail }
    {
        match self.check(alloc, moment, host)? {
            Sight::Answered => Ok(()),
            Sight::Wait { .. } => self.note_dry(moment, host),
            Sight::Again => unreachable!(),
        }
    }

    /// What a step does first that looks for a server at or past its selection's deadline (own: what a selection waits for before
    /// it fails): the check of each server is begun where it is due, driven where it runs, once more where that is due at once,
    /// and noted as seen without an answer where it still waits for one.
    pub fn read_checks(&mut self, alloc: Global, moment: u64) -> Result<(), Memory>
        requires ready { IsReady self.old moment }
        ensures ok { OnOk result (IsReady self.new moment) }
        ensures faults { N.faults self.old.net ≤ N.faults self.new.net }
        ensures appends { AppendsAside (Rose (N.faults self.old.net) (N.faults self.new.net)) moment self.old.trail self.new.trail }
    {
        let count = self.servers.len();
        let mut place: usize = 0;
        'reading: while place < count {
            self.read_check(alloc, moment, place as u32)?;
            place += 1;
        }
        Ok(())
    }
}
