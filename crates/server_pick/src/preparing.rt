ghost use Rattle.std.specs.Prelude.{◌≡◌, ◌≤◌, All, IfOk, length};
ghost use Rattle.std.specs.Option.{option_map};
ghost use Rattle.topo_rules.specs.Readings.{misfit_of};
ghost use Rattle.server_pick.specs.Prepared.{HasRoomAt, IsRoomFor, incompatible};

use crate::{Candidate, Memory, Picked};
use bson_doc::Buffer;
use host_name::Host;
use std::alloc::Global;
use topo_rules::Topology;

/// What a selection hands out, made before the picker is asked.
#[derive(Drop)]
pub struct Room {
    /// Room for the hosts that are kept.
    pub hosts: Buffer<Host>,
    /// Room for the name of the host that is chosen.
    pub name: String,
    /// What is told of a misfit.
    pub misfit: Option<Picked>,
}

/// The length of the longest name.
fn longest(candidates: &[Candidate]) -> usize
    ensures { All (HasRoomAt result) candidates.now }
{
    let mut most = 0;
    for candidate in candidates {
        most = most.max(candidate.host.name().len());
    }
    most
}

/// What is told of the misfit, where there is one.
fn misfit(alloc: Global, topology: &Topology) -> Result<Option<Picked>, Memory>
    ensures { IfOk result (λ m. m ≡ option_map incompatible (misfit_of topology.now.servers)) }
{
    match topology.misfit() {
        Some(description) => {
            let host = description.host.copy(alloc)?;
            Ok(Some(Picked::Incompatible {
                host,
                min: description.min_wire,
                max: description.max_wire,
            }))
        }
        None => Ok(None),
    }
}

/// Room for what a selection of these candidates hands out.
pub fn prepare(alloc: Global, topology: &Topology, candidates: &[Candidate]) -> Result<Room, Memory>
    ensures { IfOk result (IsRoomFor topology.now.servers candidates.now) }
{
    let mut hosts = Buffer::new(alloc);
    hosts.reserve(candidates.len())?;
    let name = String::with_capacity(alloc, longest(candidates))?;
    let misfit = misfit(alloc, topology)?;
    Ok(Room {
        hosts,
        name,
        misfit,
    })
}
