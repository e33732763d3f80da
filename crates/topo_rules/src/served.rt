ghost use Rattle.std.specs.Prelude.{◌≡◌, None, Some, if◌then◌else◌};
ghost use Rattle.topo_rules.specs.Changes.{serves as serves_lem, serves_host as serves_host_lem, stands as stands_lem, ready_after, cleared_after};
ghost use Rattle.topo_rules.specs.Rules.{event_host};

use crate::kinds::{bears_data, is_known};
use crate::{TopoEvent, TopoKind, Topology};
use hello_reply::ServerDescription;
use host_name::Host;

/// Whether a pool may serve the server (SDAM, Connection Pool Management).
fn serves(topology: &Topology, description: &ServerDescription) -> bool
    ensures { result ≡ serves_lem topology.now description.now }
{
    bears_data(description) || topology.kind == TopoKind::Single && is_known(description)
}

/// Whether the topology has the host, and a pool may serve it.
fn serves_host(topology: &Topology, host: &Host) -> bool
    ensures { result ≡ serves_host_lem topology.now host.now }
{
    match topology.find(host) {
        Some(description) => serves(topology, description),
        None => false,
    }
}

/// Whether the topology has the host.
fn stands(topology: &Topology, host: &Host) -> bool
    ensures { result ≡ stands_lem topology.now host.now }
{
    topology.find(host).is_some()
}

/// What becomes of the pools behind the event: the host whose pool is ready, and the one whose pool is cleared.
pub fn pools_behind(event: &TopoEvent, host: Host, new: &Topology) -> (Option<Host>, Option<Host>)
    requires { host ≡ event_host event.now }
    ensures ready { result.0 ≡ ready_after event.now new.now }
    ensures clear { result.1 ≡ cleared_after event.now new.now }
{
    match event {
        TopoEvent::Reply { .. } => (only_if(serves_host(new, &host), host), None),
        TopoEvent::Broken { .. } => (None, only_if(stands(new, &host), host)),
        TopoEvent::Refused { shutdown, .. } => {
            (None, only_if(*shutdown && stands(new, &host), host))
        }
    }
}

/// The host, where the test holds.
fn only_if(test: bool, host: Host) -> Option<Host>
    ensures { result ≡ (if test then Some host else None) }
{
    if test { Some(host) } else { None }
}
