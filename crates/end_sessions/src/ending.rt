ghost use Rattle.std.specs.Prelude.{◌≡◌, ◌≤◌, [], length, OnOk};
ghost use Rattle.end_sessions.specs.Farewells.{AsksFarewells, EndsWhereKept};

use crate::Memory;
use crate::asking::{Asking, ask_at};
use crate::hosts::readable_hosts;
use net_link::Net;
use server_state::Server;
use sess_step::LeaseBook;
use std::alloc::Global;
use topo_rules::Topology;
use wired_trail::WiredTrail;

/// What a client has as it ends.
#[derive(Clone, Copy)]
pub struct Ending<'a> {
    /// Its topology.
    pub topology: &'a Topology,
    /// All servers that were ever named, by number.
    pub servers: &'a [Server],
    /// Its sessions.
    pub sessions: &'a LeaseBook,
    /// For how many entries behind the farewells room is to be left.
    pub closings: usize,
    /// When it ends, in microseconds.
    pub moment: u64,
}

/// Asks farewells of the sessions that were given back, where servers end sessions that are not used (Driver Sessions,
/// endSessions): one for each list of their ids, in order, each on the connection of its own of a server to which a read may go
/// that prefers the primary, while there is one that is available, has not perished, and has nothing unsent. What the net takes
/// of each is sent; the answers are not read. Where memory is wanting those that are left are not asked.
pub fn end_sessions<N: Net>(
    alloc: Global,
    wired: &mut WiredTrail<N>,
    ending: Ending<'_>,
) -> Result<(), Memory>
    requires paid { wired.old.trail.point.owed ≡ [] }
    requires time { wired.old.trail.point.moment ≤ ending.moment }
    requires counted { wired.old.trail.point.state.requests ≡ length wired.old.trail.lists.requests }
    requires none { wired.old.trail.point.state.farewells ≡ [] }
    requires topology { wired.old.trail.point.state.topology ≡ ending.topology.now }
    requires servers { wired.old.trail.point.state.servers ≡ ending.servers.now }
    requires sessions { wired.old.trail.point.state.sessions ≡ ending.sessions.now }
    requires room { ending.closings ≤ wired.old.trail.room.steps }
    ensures asks { AsksFarewells ending.entry.moment wired.old.trail wired.new.trail }
    ensures ends { OnOk result (EndsWhereKept wired.old.trail.point.state wired.new.trail.point.state wired.old.lines ending.entry.moment) }
    ensures room { ending.entry.closings ≤ wired.new.trail.room.steps }
    ensures faults { N.faults wired.old.net ≤ N.faults wired.new.net }
{
    if ending.topology.session_minutes().is_none() {
        return Ok(());
    }
    let lists = ending.sessions.ending(alloc)?;
    let hosts = readable_hosts(alloc, ending.topology)?;
    let asking = Asking {
        hosts: hosts.as_slice(),
        lists: lists.as_slice(),
        closings: ending.closings,
        moment: ending.moment,
    };
    let mut carriers = Vec::new(alloc);
    let mut place: usize = 0;
    'ending: while place < ending.servers.len() {
        ask_at(alloc, wired, asking, &ending.servers[place], &mut carriers)?;
        place += 1;
    }
    Ok(())
}
