use crate::kinds::{server_kind_text, topology_kind_text};
use crate::log::Log;
use case_files::CaseFault;
use desk_trail::{Entry, OfferedHow};
use std::alloc::Global;
use topo_rules::{TopoEvent, Topology};

/// The topology that a client's accepted events make of the one that it opened with.
pub fn folded(alloc: Global, opening: &Topology, log: &Log<'_>) -> Result<Topology, CaseFault> {
    let mut topology = opening.copy(alloc)?;
    for step in log.steps {
        if let Some(event) = accepted(&step.entry, log) {
            take_in(alloc, &mut topology, event)?;
        }
    }
    Ok(topology)
}

/// The event that the entry says was accepted.
fn accepted<'a>(entry: &Entry, log: &Log<'a>) -> Option<&'a TopoEvent> {
    match entry {
        Entry::Offered {
            event,
            taken: OfferedHow::Accepted { .. },
        } => log.events.get(*event as usize),
        _ => None,
    }
}

/// The event of a host that the topology has.
fn take_in(alloc: Global, topology: &mut Topology, event: &TopoEvent) -> Result<(), CaseFault> {
    if topology.find(event.host()).is_none() {
        return Err(CaseFault::Refused("an event of no host was accepted"));
    }
    let _change = topology.apply(alloc, event)?;
    Ok(())
}

/// `topology KIND [set=NAME] [e=BYTE] [v=N] HOST=KIND..`: the kind, the set's name, the last byte of the greatest election,
/// the greatest set version, and the servers in the order of hosts.
pub fn topology_text(alloc: Global, topology: &Topology) -> Result<String, CaseFault> {
    let kind = topology_kind_text(topology.kind());
    let mut line = format!(in alloc; "topology {kind}")?;
    if let Some(name) = topology.set_name() {
        write!(&mut line, " set={name}")?;
    }
    if let Some(election) = topology.max_election() {
        let last = election.0[11];
        write!(&mut line, " e={last}")?;
    }
    if let Some(version) = topology.max_set_version() {
        write!(&mut line, " v={version}")?;
    }
    for place in 0..topology.len() {
        if let Some(description) = topology.at(place) {
            let host = description.host.name();
            let kind = server_kind_text(description.kind);
            write!(&mut line, " {host}={kind}")?;
        }
    }
    Ok(line)
}
