ghost use Rattle.std.specs.Prelude.{◌≡◌, ◌≤◌, ◌^◌, ℕ, true, false, IfNone, IfOk, IfSome, OnOk};
ghost use Rattle.net_link.specs.Causes.{Rose};
ghost use Rattle.desk_trail.specs.Checks.{AtServer, IsDue, Runs};
ghost use Rattle.desk_core.specs.Appends.{AppendsAside};
ghost use Rattle.desk_core.specs.Kept.{IsReady};
ghost use Rattle.desk_core.specs.Rests.{HasEnded};
ghost use Rattle.desk_core.specs.Sights.{IsAwaited, MeansCheck};
ghost use Rattle.desk_core.specs.State.{now_of};

use crate::state::Core;
use crate::{Memory, Sight};
use net_link::Net;
use std::alloc::Global;
use watch_step::LAST_MOMENT;

impl<N: Net> Core<N> {
    /// The moment of a step that is made now: no earlier than the last one's.
    pub fn tick(&mut self, moment: u64) -> u64
        ensures now { result ≡ now_of self.old.last moment }
        ensures range { result ≤ 2 ^ 62 }
        ensures same { self.new ≡ record self.old { last = result } }
    {
        self.last = self.last.max(moment.min(LAST_MOMENT));
        self.last
    }

    /// It stops for want of memory, in a step of that moment.
    pub fn stop(&mut self, moment: u64)
        requires { moment ≤ 2 ^ 62 }
        ensures { self.new ≡ record self.old { last = moment; is_stopped = true } }
    {
        self.last = moment;
        self.stopped = true;
    }

    /// Whether a check of the server is due.
    pub fn is_due(&self, moment: u64, host: u32) -> bool
        requires { self.now.is_stopped ≡ false }
        ensures yes { result ≡ true → AtServer self.now.trail.point.state host (IsDue moment) }
        ensures no { result ≡ false → AtServer self.now.trail.point.state host (IsDue moment) → ⊥ }
    {
        match self.servers.get(host as usize) {
            Some(server) => !server.has_left()
                && server.began().is_none()
                && server.due() <= moment,
            None => false,
        }
    }

    /// Whether a check of the server runs.
    fn is_running(&self, host: u32) -> bool
        requires { self.now.is_stopped ≡ false }
        ensures yes { result ≡ true → AtServer self.now.trail.point.state host (λ s. (began : ℕ) × Runs began s) }
        ensures no { result ≡ false → AtServer self.now.trail.point.state host (λ s. (began : ℕ) × Runs began s) → ⊥ }
    {
        match self.servers.get(host as usize) {
            Some(server) => !server.has_left() && server.began().is_some(),
            None => false,
        }
    }

    /// Begins the check of a server where it is due, and drives it where it runs. Some moment where its answer is still waited
    /// for, which is that until which it is.
    fn check_once(&mut self, alloc: Global, moment: u64, host: u32) -> Result<Option<u64>, Memory>
        requires ready { IsReady self.old moment }
        ensures ok { OnOk result (IsReady self.new moment) }
        ensures waits { IfOk result (λ r. IfSome r (λ until. IsAwaited self.new.trail.client self.new.trail.point.state moment host until)) }
        ensures ends { IfOk result (λ r. IfNone r (HasEnded self.old.trail.point.state self.new.trail.point.state moment host)) }
        ensures faults { N.faults self.old.net ≤ N.faults self.new.net }
        ensures appends { AppendsAside (Rose (N.faults self.old.net) (N.faults self.new.net)) moment self.old.trail self.new.trail }
    {
        if self.is_due(moment, host) {
            self.begin_check(alloc, moment, host)?;
        }
        if self.is_running(host) {
            self.drive_check(alloc, moment, host)
        } else {
            Ok(None)
        }
    }

    /// Begins, drives or ends the check of a server. One that fails on a server that was known is followed by another at once
    /// (Server Monitoring, Network or command error during server check), and then the server is known no more.
    pub fn check(&mut self, alloc: Global, moment: u64, host: u32) -> Result<Sight, Memory>
        requires ready { IsReady self.old moment }
        ensures ok { OnOk result (IsReady self.new moment) }
        ensures sight { IfOk result (MeansCheck self.new.trail.client self.new.trail.point.state moment host) }
        ensures faults { N.faults self.old.net ≤ N.faults self.new.net }
        ensures appends { AppendsAside (Rose (N.faults self.old.net) (N.faults self.new.net)) moment self.old.trail self.new.trail }
    {
        if let Some(until) = self.check_once(alloc, moment, host)? {
            return Ok(Sight::Wait { until });
        }
        if let Some(until) = self.check_once(alloc, moment, host)? {
            return Ok(Sight::Wait { until });
        }
        Ok(Sight::Answered)
    }
}
