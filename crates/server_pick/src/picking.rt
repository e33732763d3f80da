ghost use Rattle.std.specs.Prelude.{◌≡◌, ◌≢◌, All, IfOk};
ghost use Rattle.server_pick.specs.Candidates.{candidates};
ghost use Rattle.server_pick.specs.Picks.{picks};
ghost use Rattle.server_pick.specs.Prepared.{IsRoomFor, IsTrueTo};
ghost use Rattle.server_pick.specs.Runs.{Runs};

use crate::asking::ask_all;
use crate::concluding::conclude;
use crate::gathering::gather;
use crate::preparing::{Room, prepare};
use crate::suitable::suitable;
use crate::{Candidate, Criteria, Loads, Memory, Picked, Picker};
use bson_doc::Rows;
use host_name::Host;
use std::alloc::Global;
use topo_rules::Topology;

/// What stands ready before a picker is asked.
#[derive(Drop)]
pub struct Ready {
    /// The candidates, in the order of hosts.
    pub candidates: Vec<Candidate>,
    /// Room for what the selection hands out.
    pub room: Room,
}

/// Takes all memory that a selection takes.
pub fn make_ready<L: Loads>(
    alloc: Global,
    topology: &Topology,
    criteria: &Criteria<'_>,
    loads: &L,
) -> Result<Ready, Memory>
    ensures candidates { IfOk result (λ r. r.candidates.items ≡ candidates topology.now criteria.now (L.load loads.now)) }
    ensures facts { IfOk result (λ r. All (IsTrueTo topology.now.servers (L.load loads.now)) r.candidates.items) }
    ensures room { IfOk result (λ r. IsRoomFor topology.now.servers r.candidates.items r.room) }
{
    let sieve = suitable(topology, criteria);
    let candidates = gather(alloc, topology, &sieve, loads)?;
    let room = prepare(alloc, topology, candidates.as_slice())?;
    Ok(Ready { candidates, room })
}

/// Selects a server (Server Selection, Server selection algorithm), by a picker and loads that are given by their types.
///
/// The picker is asked once for each candidate, in the order of hosts, and `kept` has the hosts that it allowed. Of these the
/// words `w1` and `w2` draw two within the latency window, and the one with fewer operations in flight is chosen.
///
/// [`Picked::Incompatible`] comes exactly where the topology has a misfit, and [`Picked::NoneFits`] exactly where it has none
/// and nothing was kept. Where memory is wanting the picker was not asked, and `kept` is as it was.
pub fn pick_by<P: Picker, L: Loads>(
    alloc: Global,
    topology: &Topology,
    criteria: &Criteria<'_>,
    picker: &mut P,
    loads: &L,
    w1: u64,
    w2: u64,
    kept: &mut Rows<Host>,
) -> Picked
    ensures run { result ≢ Picked.Memory → Runs P.allows P.follows picker.old (candidates topology.now criteria.now (L.load loads.now)) kept.new picker.new }
    ensures answer { result ≢ Picked.Memory → result ≡ picks topology.now.servers criteria.now.threshold_micros kept.new (L.load loads.now) w1 w2 }
    ensures unasked { result ≡ Picked.Memory → picker.new ≡ picker.old }
    ensures unkept { result ≡ Picked.Memory → kept.new ≡ kept.old }
{
    let Ok(prepared) = make_ready(alloc, topology, criteria, loads) else {
        return Picked::Memory;
    };
    let Ready { candidates, room } = prepared;
    let allowed = ask_all(picker, candidates);
    let (picked, hosts) = conclude(room, allowed, criteria.threshold_micros, w1, w2);
    *kept = hosts;
    picked
}
