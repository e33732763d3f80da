//! Hosts, kinds of servers, and the topologies that steps start.
use case_files::{CaseFault, Words};
use hello_reply::ServerKind;
use host_name::{Host, HostFault};
use std::alloc::Global;
use topo_rules::Topology;

/// The host of a name.
pub fn host(alloc: Global, text: &str) -> Result<Host, CaseFault> {
    match Host::parse(alloc, text) {
        Ok(host) => Ok(host),
        Err(HostFault::Memory) => Err(CaseFault::Memory),
        Err(_) => Err(CaseFault::form(alloc, text)),
    }
}

/// The kind of a server by its name.
pub fn server_kind(alloc: Global, text: &str) -> Result<ServerKind, CaseFault> {
    match kind_named(text) {
        Some(kind) => Ok(kind),
        None => Err(CaseFault::form(alloc, text)),
    }
}

fn kind_named(text: &str) -> Option<ServerKind> {
    match text {
        "Unknown" => Some(ServerKind::Unknown),
        "Standalone" => Some(ServerKind::Standalone),
        "Mongos" => Some(ServerKind::Mongos),
        "Primary" => Some(ServerKind::Primary),
        "Secondary" => Some(ServerKind::Secondary),
        "Arbiter" => Some(ServerKind::Arbiter),
        "Other" => Some(ServerKind::Other),
        "Ghost" => Some(ServerKind::Ghost),
        _ => None,
    }
}

/// The topology that the words `HOST.. [set=NAME] [direct]` start.
pub fn started(alloc: Global, words: &mut Words<'_>) -> Result<Topology, CaseFault> {
    let direct = words.flag("direct");
    let set_name = words.value("set");
    let hosts = hosts_of(alloc, words)?;
    start(alloc, hosts.as_slice(), set_name, direct)
}

/// The hosts that the words left name.
fn hosts_of(alloc: Global, words: &mut Words<'_>) -> Result<Vec<Host>, CaseFault> {
    let mut hosts = Vec::new(alloc);
    for name in words.rest(alloc) {
        if name == "direct" || name.contains('=') {
            return Err(CaseFault::word(alloc, name));
        }
        hosts.push(host(alloc, name)?)?;
    }
    Ok(hosts)
}

fn start(
    alloc: Global,
    hosts: &[Host],
    set_name: Option<&str>,
    direct: bool,
) -> Result<Topology, CaseFault> {
    if !Topology::may_start(alloc, hosts, direct)? {
        return Err(CaseFault::Refused("no hosts to start with"));
    }
    Ok(Topology::start(alloc, hosts, set_name, direct)?)
}

/// The topology that stands before any is started: of one host.
pub fn placeholder(alloc: Global) -> Result<Topology, CaseFault> {
    start(alloc, &[host(alloc, "none")?], None, false)
}
