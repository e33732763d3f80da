use crate::servers::host;
use crate::topologies::kinds::{server_kind_text, topology_kind_text};
use crate::topologies::values::version_text;
use case_files::CaseFault;
use hello_reply::ServerDescription;
use std::alloc::Global;
use topo_rules::{Change, TopoEvent, Topology};

/// What the event changes, whose host must be in the topology.
pub fn take_in(
    alloc: Global,
    topology: &mut Topology,
    event: &TopoEvent,
) -> Result<Change, CaseFault> {
    if topology.find(event.host()).is_none() {
        return Err(CaseFault::Refused("no such host"));
    }
    Ok(topology.apply(alloc, event)?)
}

/// The fact of the topology that has this name.
pub fn topology_fact(
    alloc: Global,
    topology: &Topology,
    name: &str,
) -> Result<Option<String>, CaseFault> {
    match name {
        "topology" => Ok(Some(shown(alloc, topology)?)),
        "minutes" => Ok(Some(minutes(alloc, topology)?)),
        "misfit" => Ok(Some(misfit(alloc, topology)?)),
        "means" | "versions" => Ok(Some(of_servers(alloc, topology, name)?)),
        _ => Ok(None),
    }
}

/// `topology KIND [set=NAME] [e=BYTE] [v=N] HOST=KIND..`: the kind, the set's name, the last byte of the greatest election,
/// the greatest set version, and the servers in the order of hosts.
fn shown(alloc: Global, topology: &Topology) -> Result<String, CaseFault> {
    let kind = topology_kind_text(topology.kind());
    let mut line = format!(in alloc; "topology {kind}")?;
    if let Some(name) = topology.set_name() {
        write!(&mut line, " set={name}")?;
    }
    if let Some(election) = topology.max_election() {
        let last = election.0[11];
        write!(&mut line, " e={last}")?;
    }
    if let Some(version) = topology.max_set_version() {
        write!(&mut line, " v={version}")?;
    }
    for place in 0..topology.len() {
        if let Some(description) = topology.at(place) {
            let host = description.host.name();
            let kind = server_kind_text(description.kind);
            write!(&mut line, " {host}={kind}")?;
        }
    }
    Ok(line)
}

fn minutes(alloc: Global, topology: &Topology) -> Result<String, CaseFault> {
    match topology.session_minutes() {
        Some(minutes) => Ok(format!(in alloc; "minutes {minutes}")?),
        None => Ok(String::from_str(alloc, "minutes none")?),
    }
}

fn misfit(alloc: Global, topology: &Topology) -> Result<String, CaseFault> {
    let host = match topology.misfit() {
        Some(description) => description.host.name(),
        None => "none",
    };
    Ok(format!(in alloc; "misfit {host}")?)
}

/// `means HOST=MICROSECONDS..` or `versions HOST=VERSION..`, of each server in the order of hosts.
fn of_servers(alloc: Global, topology: &Topology, name: &str) -> Result<String, CaseFault> {
    let mut line = String::from_str(alloc, name)?;
    for place in 0..topology.len() {
        if let Some(description) = topology.at(place) {
            let host = description.host.name();
            let text = if name == "means" {
                mean_text(alloc, description)?
            } else {
                version_text(alloc, &description.version)?
            };
            write!(&mut line, " {host}={}", text.as_str())?;
        }
    }
    Ok(line)
}

fn mean_text(alloc: Global, description: &ServerDescription) -> Result<String, CaseFault> {
    match description.mean {
        Some(mean) => Ok(format!(in alloc; "{mean}")?),
        None => Ok(String::from_str(alloc, "none")?),
    }
}
