ghost use Rattle.std.specs.Prelude.{◌≡◌, ◌≤◌, ◌^◌, ◌∷◌, [], List, IfOk, OnOk, length, map};
ghost use Rattle.desk_trail.specs.Checks.{due_from, is_due};
ghost use Rattle.desk_trail.specs.Owed.{Owed};
ghost use Rattle.desk_trail.specs.Owed as owed;
ghost use Rattle.net_link.specs.Causes.{Rose};
ghost use Rattle.desk_core.specs.Appends.{AppendsAside};
ghost use Rattle.desk_core.specs.Kept.{IsReady, IsWriting};

use crate::Memory;
use crate::state::Core;
use net_link::Net;
use server_state::Server;
use std::alloc::{AllocError, Global};

/// Whether a check of the server is due: it stands in the topology, and none runs.
fn is_due(server: &Server, moment: u64) -> bool
    ensures { result ≡ is_due moment server.now }
{
    !server.has_left() && server.began().is_none() && server.due() <= moment
}

/// The numbers of the servers of which a check is due, in their order.
fn due_hosts(alloc: Global, servers: &[Server], moment: u64) -> Result<Vec<u32>, Memory>
    requires few { length servers.now ≤ 2 ^ 32 }
    ensures due { IfOk result (λ hosts. map (λ x. owed.Begun x) hosts.items ≡ due_from 0 moment servers.now) }
{
    let mut hosts = Vec::new(alloc);
    let mut place: usize = 0;
    'looking: while place < servers.len() {
        if is_due(&servers[place], moment) {
            hosts.push(place as u32)?;
        }
        place += 1;
    }
    Ok(hosts)
}

impl<N: Net> Core<N> {
    /// Begins the check that must begin next.
    fn begin_next(&mut self, alloc: Global, moment: u64, host: u32) -> Result<(), Memory>
        requires writing { (rest : List Owed) × IsWriting self.old moment 0 (owed.Begun host ∷ rest) }
        ensures ok { (rest : List Owed) → IsWriting self.old moment 0 (owed.Begun host ∷ rest) → OnOk result (IsWriting self.new moment 0 rest) }
        ensures faults { N.faults self.old.net ≤ N.faults self.new.net }
        ensures appends { AppendsAside (Rose (N.faults self.old.net) (N.faults self.new.net)) moment self.old.trail self.new.trail }
    {
        if !self.is_due(moment, host) {
            // (cannot be: a check that breaks removes no other host)
            self.stopped = true;
            return Err(AllocError);
        }
        self.begin_check(alloc, moment, host)
    }

    /// Begins the checks of these hosts, which must begin next, in this order.
    fn begin_all(&mut self, alloc: Global, moment: u64, hosts: &[u32]) -> Result<(), Memory>
        requires writing { IsWriting self.old moment 0 (map (λ x. owed.Begun x) hosts.now) }
        ensures ok { OnOk result (IsWriting self.new moment 0 []) }
        ensures faults { N.faults self.old.net ≤ N.faults self.new.net }
        ensures appends { AppendsAside (Rose (N.faults self.old.net) (N.faults self.new.net)) moment self.old.trail self.new.trail }
    {
        for host in hosts {
            self.begin_next(alloc, moment, *host)?;
        }
        Ok(())
    }

    /// Begins the checks that are due, where each of them must begin next, as behind a look that found no suitable server (Server
    /// Selection, requesting an immediate topology check).
    pub fn begin_owed(&mut self, alloc: Global, moment: u64) -> Result<(), Memory>
        requires writing { IsWriting self.old moment 0 (due_from 0 moment self.old.trail.point.state.servers) }
        ensures ok { OnOk result (IsReady self.new moment) }
        ensures faults { N.faults self.old.net ≤ N.faults self.new.net }
        ensures appends { AppendsAside (Rose (N.faults self.old.net) (N.faults self.new.net)) moment self.old.trail self.new.trail }
    {
        let hosts = due_hosts(alloc, &self.servers, moment)?;
        self.begin_all(alloc, moment, hosts.as_slice())
    }
}
