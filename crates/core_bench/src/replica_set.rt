//! The replica sets that are measured.

use bson_doc::Text;
use hello_reply::{ServerDescription, ServerKind, default_unknown};
use host_name::Host;
use std::alloc::Global;
use topo_rules::{TopoEvent, Topology};

/// The most hosts that are measured: as many as a reply may list.
pub const MOST_HOSTS: u32 = 1_000;

/// The topology that starts with the hosts.
pub fn opened(alloc: Global, hosts: &[Host]) -> Option<Topology> {
    let Ok(may) = Topology::may_start(alloc, hosts, false) else {
        return None;
    };
    if !may {
        return None;
    }
    Topology::start(alloc, hosts, Some("rs"), false).ok()
}

/// The description of a host as a member of this kind that lists all.
pub fn member(
    alloc: Global,
    host: &Host,
    kind: ServerKind,
    hosts: &[Host],
) -> Option<ServerDescription> {
    let mut description = default_unknown(alloc, host).ok()?;
    description.kind = kind;
    fill(alloc, &mut description, hosts)?;
    Some(description)
}

/// Has a description name the set and list these hosts.
fn fill(alloc: Global, description: &mut ServerDescription, hosts: &[Host]) -> Option<()> {
    description.set_name = Some(Text::take(alloc, "rs").ok()?);
    for host in hosts {
        description.listed.push(host.copy(alloc).ok()?).ok()?;
    }
    Some(())
}

/// Takes the event in, where its host is in the topology.
pub fn take_in(alloc: Global, topology: &mut Topology, event: &TopoEvent) -> Option<()> {
    topology.find(event.host())?;
    topology.apply(alloc, event).ok()?;
    Some(())
}
