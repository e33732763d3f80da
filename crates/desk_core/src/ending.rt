ghost use Rattle.std.specs.Prelude.{◌≡◌, ◌≤◌, ◌<◌, ◌+◌, ◌^◌, ℕ, [], ◌∷◌, true, false, Some, length, slice_get};
ghost use Rattle.pool_book.specs.Pool.{is_closed};
ghost use Rattle.desk_trail.specs.Facts.{facts_of};
ghost use Rattle.desk_trail.specs.Legal.{IsComplete, IsLegal, point_behind};
ghost use Rattle.desk_trail.specs.States.{ServerState};
ghost use Rattle.desk_trail.specs.Written.{lists_of};
ghost use Rattle.legal_trail.specs.Recorded.{Recorded};
ghost use Rattle.wired_trail.specs.Faults.{IsCounted};
ghost use Rattle.wired_trail.specs.Wired.{IsWired};
ghost use Rattle.desk_core.specs.Appends.{AppendsAside};
ghost use Rattle.desk_core.specs.Ending.{ArePoolsShut};
ghost use Rattle.desk_core.specs.Kept.{IsReady};
ghost use Rattle.desk_core.specs.Servers.{closing_of, closings};

use crate::shutting::shut_available;
use crate::state::Core;
use desk_trail::Entry;
use end_sessions::{Ending, end_sessions};
use net_link::Net;
use server_state::Server;
use sess_step::LeaseBook;
use std::alloc::Global;
use wired_trail::{Finished, WiredTrail};

/// Closes the pool of a server, with the connections that are available in it, where the server stands in the topology.
fn shut_pool<N: Net>(wired: &mut WiredTrail<N>, server: &Server, host: u32, moment: u64)
    requires there { slice_get wired.old.trail.point.state.servers host ≡ Some server.now }
    requires idle { server.now.pool.owed ≡ [] }
    requires is_open { server.now.has_left ≡ false → is_closed server.now.pool.state.state ≡ false }
    requires room { closing_of server.now ≤ wired.old.trail.room.steps }
    requires paid { wired.old.trail.point.owed ≡ [] }
    requires moment { wired.old.trail.point.moment ≤ moment }
    ensures paid { wired.new.trail.point.owed ≡ [] }
    ensures moment { wired.new.trail.point.moment ≤ moment }
    ensures others { (x : ℕ) → (x ≡ host → ⊥) → slice_get wired.new.trail.point.state.servers x ≡ slice_get wired.old.trail.point.state.servers x }
    ensures shut { (s : ServerState) → slice_get wired.new.trail.point.state.servers host ≡ Some s → s.has_left ≡ false
        → is_closed s.pool.state.state ≡ true }
    ensures room { wired.old.trail.room.steps ≡ wired.new.trail.room.steps + closing_of server.now }
    ensures faults { N.faults wired.old.net ≤ N.faults wired.new.net }
    ensures appends { AppendsAside ⊥ moment wired.old.trail wired.new.trail }
{
    if !server.has_left() {
        wired.append(moment, Entry::PoolShut { host });
        shut_available(wired, server, host, moment);
    }
}

/// Closes the pools of the servers that stand in the topology, in the order of their numbers.
fn shut_pools<N: Net>(wired: &mut WiredTrail<N>, servers: &[Server], moment: u64)
    requires servers { wired.old.trail.point.state.servers ≡ servers.now }
    requires idle { (x : ℕ) (s : ServerState) → slice_get servers.now x ≡ Some s → s.pool.owed ≡ [] }
    requires is_open { (x : ℕ) (s : ServerState) → slice_get servers.now x ≡ Some s → s.has_left ≡ false → is_closed s.pool.state.state ≡ false }
    requires few { length servers.now ≤ 2 ^ 32 }
    requires room { closings servers.now ≤ wired.old.trail.room.steps }
    requires paid { wired.old.trail.point.owed ≡ [] }
    requires moment { wired.old.trail.point.moment ≤ moment }
    ensures paid { wired.new.trail.point.owed ≡ [] }
    ensures shut { ArePoolsShut wired.new.trail.point.state }
    ensures faults { N.faults wired.old.net ≤ N.faults wired.new.net }
    ensures appends { AppendsAside ⊥ moment wired.old.trail wired.new.trail }
{
    let mut place: usize = 0;
    'shutting: while place < servers.len() {
        shut_pool(wired, &servers[place], place as u32, moment);
        place += 1;
    }
}

/// Asks the farewells of the sessions that were given back, and then closes the pools of the servers that stand in the topology.
fn end_client<N: Net>(alloc: Global, wired: &mut WiredTrail<N>, ending: Ending<'_>)
    requires servers { wired.old.trail.point.state.servers ≡ ending.servers.now }
    requires topology { wired.old.trail.point.state.topology ≡ ending.topology.now }
    requires sessions { wired.old.trail.point.state.sessions ≡ ending.sessions.now }
    requires counted { wired.old.trail.point.state.requests ≡ length wired.old.trail.lists.requests }
    requires goes_on { wired.old.trail.point.state.is_ending ≡ false }
    requires idle { (x : ℕ) (s : ServerState) → slice_get ending.servers.now x ≡ Some s → s.pool.owed ≡ [] }
    requires is_open { (x : ℕ) (s : ServerState) → slice_get ending.servers.now x ≡ Some s → s.has_left ≡ false → is_closed s.pool.state.state ≡ false }
    requires few { length ending.servers.now ≤ 2 ^ 32 }
    requires closings { ending.closings ≡ closings ending.servers.now }
    requires room { ending.closings ≤ wired.old.trail.room.steps }
    requires paid { wired.old.trail.point.owed ≡ [] }
    requires moment { wired.old.trail.point.moment ≤ ending.moment }
    ensures paid { wired.new.trail.point.owed ≡ [] }
    ensures shut { ArePoolsShut wired.new.trail.point.state }
    ensures faults { N.faults wired.old.net ≤ N.faults wired.new.net }
    ensures appends { AppendsAside ⊥ ending.entry.moment wired.old.trail wired.new.trail }
{
    wired.steps();
    trail_laws::ending::a_client_that_goes_on_asked_no_farewell();
    // (where memory is wanting, the farewells that are left are not asked)
    let _ = end_sessions(alloc, wired, ending);
    shut_pools(wired, ending.servers, ending.moment);
}

impl<N: Net> Core<N> {
    /// Ends the sessions that were given back, closes the pools, and then all streams. A desk that stopped appends nothing to its
    /// trail.
    pub fn finish(self, alloc: Global, sessions: &LeaseBook, moment: u64) -> Finished<N>
        requires ready { self.is_stopped ≡ false → IsReady self moment }
        requires sessions { self.is_stopped ≡ false → self.trail.point.state.sessions ≡ sessions.now }
        ensures legal { IsLegal self.trail.client (lists_of result.parts.trail) result.parts.trail.steps }
        ensures complete { self.is_stopped ≡ false → IsComplete self.trail.client (lists_of result.parts.trail) result.parts.trail.steps }
        ensures shut { self.is_stopped ≡ false
            → ArePoolsShut (point_behind self.trail.client (facts_of (lists_of result.parts.trail) result.parts.trail.steps)).state }
        ensures grown { (new : Recorded) × AppendsAside ⊥ moment self.trail new × (lists_of result.parts.trail ≡ new.lists) × (result.parts.trail.steps ≡ new.steps) }
        ensures wired { N.tells → IsWired self.trail.client (N.history result.net) (facts_of (lists_of result.parts.trail) result.parts.trail.steps) }
        ensures counted { IsCounted (N.faults result.net) result.parts.trail.steps }
        ensures settings { result.parts.settings ≡ self.trail.client.settings }
        ensures commands { result.parts.commands ≡ self.trail.client.commands }
        ensures faults { N.faults self.net ≤ N.faults result.net }
    {
        let Core {
            mut wired,
            topology,
            servers,
            closings,
            stopped,
            ..
        } = self;
        if !stopped {
            let ending = Ending {
                topology: topology.topology(),
                servers: &servers,
                sessions,
                closings,
                moment,
            };
            end_client(alloc, &mut wired, ending);
        }
        wired.finish()
    }
}
