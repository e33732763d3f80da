//! What must stand behind a phase.
use crate::client::Client;
use crate::facts::{oid, shown, topology_kind};
use crate::servers::compare_servers;
use serde_json::Value;
use std::alloc::Global;
use suite_files::extended::{value_of, value_text};
use suite_files::members::object;
use suite_files::{Fault, Tally};
use topo_rules::Topology;

/// Compares each fact that the outcome has.
pub fn compare_outcome(
    alloc: Global,
    client: &Client,
    phase: u64,
    outcome: &Value,
    tally: &mut Tally,
) -> Result<(), Fault> {
    for (name, expected) in object(alloc, outcome)?.iter() {
        let name = name.as_str();
        if name == "servers" {
            compare_servers(alloc, client, phase, expected, tally)?;
            continue;
        }
        let Some(got) = topology_fact(alloc, client.topology(), name)? else {
            return Err(Fault::told(alloc, format_args!("no fact {name}")));
        };
        let expected = value_text(alloc, &value_of(alloc, expected)?)?;
        let what = format_args!("phase {phase}: {name}");
        tally.compare(alloc, what, expected.as_str(), got.as_str())?;
    }
    Ok(())
}

/// The fact of the topology that has this name.
fn topology_fact(alloc: Global, topology: &Topology, name: &str) -> Result<Option<String>, Fault> {
    let fact = match name {
        "topologyType" => String::from_str(alloc, topology_kind(topology.kind()))?,
        "setName" => shown(alloc, topology.set_name())?,
        "logicalSessionTimeoutMinutes" => shown(alloc, topology.session_minutes())?,
        "maxElectionId" => oid(alloc, topology.max_election())?,
        "maxSetVersion" => shown(alloc, topology.max_set_version())?,
        "compatible" => format!(in alloc; "{}", topology.misfit().is_none())?,
        _ => return Ok(None),
    };
    Ok(Some(fact))
}
