ghost use Rattle.std.specs.Prelude.{◌≡◌, IfOk, OnOk, filter, map as map_lem};
ghost use Rattle.std.specs.FinMap as map;
ghost use Rattle.topo_rules.specs.Maps.{StandAtHosts};
ghost use Rattle.server_pick.specs.Candidates.{candidate_of as candidate_of_lem};
ghost use Rattle.server_pick.specs.Gathered.{with_passing};
ghost use Rattle.server_pick.specs.Sieves.{passes};

use crate::sieve::Sieve;
use crate::{Candidate, Loads, Memory};
use hello_reply::ServerDescription;
use std::alloc::Global;
use topo_rules::Topology;

/// What a picker sees of the server.
fn candidate_of<L: Loads>(
    alloc: Global,
    description: &ServerDescription,
    loads: &L,
) -> Result<Candidate, Memory>
    ensures { IfOk result (λ c. c ≡ candidate_of_lem (L.load loads.now) description.now) }
{
    let host = description.host.copy(alloc)?;
    let in_flight = loads.in_flight(&description.host);
    Ok(Candidate {
        host,
        kind: description.kind,
        mean: description.mean.unwrap_or(0),
        in_flight,
    })
}

/// Appends the server as a candidate where it passes.
fn note<L: Loads>(
    alloc: Global,
    description: &ServerDescription,
    sieve: &Sieve<'_>,
    loads: &L,
    candidates: &mut Vec<Candidate>,
) -> Result<(), Memory>
    ensures { OnOk result (candidates.new.items ≡ with_passing (L.load loads.now) (passes sieve.now) candidates.old.items description.now) }
{
    if !sieve.passes(description) {
        return Ok(());
    }
    let candidate = candidate_of(alloc, description, loads)?;
    candidates.push(candidate)?;
    Ok(())
}

/// The servers that pass, as candidates, in the order of hosts.
pub fn gather<L: Loads>(
    alloc: Global,
    topology: &Topology,
    sieve: &Sieve<'_>,
    loads: &L,
) -> Result<Vec<Candidate>, Memory>
    ensures candidates { IfOk result (λ cs. cs.items ≡ map_lem (candidate_of_lem (L.load loads.now)) (filter (passes sieve.now) (map.values topology.now.servers))) }
    ensures hosts { IfOk result (λ _. StandAtHosts topology.now.servers) }
{
    let mut candidates = Vec::new(alloc);
    for place in 0..topology.len() {
        if let Some(description) = topology.at(place) {
            note(alloc, description, sieve, loads, &mut candidates)?;
        }
    }
    Ok(candidates)
}
