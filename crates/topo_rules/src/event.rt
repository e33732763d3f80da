ghost use Rattle.std.specs.Prelude.{◌≡◌, IfOk};

use crate::Memory;
use bson_doc::TopologyVersion;
use hello_reply::ServerDescription;
use host_name::Host;
use std::alloc::Global;

/// What was heard of a server.
#[derive(Debug, Drop)]
pub enum TopoEvent {
    /// A hello reply came (SDAM, Parsing a hello or legacy hello response).
    Reply {
        /// What the reply says. Its mean plays no part.
        description: ServerDescription,
        /// How long the round trip took, in microseconds.
        sample: u64,
    },
    /// A check, or a connection of the server's pool, broke (SDAM, Network error).
    Broken {
        /// The server.
        host: Host,
        /// The generation of the pool's connection; none of a check.
        generation: Option<u64>,
    },
    /// A command was answered by a state change error (SDAM, "not writable primary" and "node is recovering").
    Refused {
        /// The server.
        host: Host,
        /// The error's topologyVersion.
        version: Option<TopologyVersion>,
        /// The generation of the pool's connection.
        generation: u64,
        /// The error says that the server shuts down.
        shutdown: bool,
    },
}

impl TopoEvent {
    ghost use Rattle.topo_rules.specs.Rules.{event_host};

    /// The server that the event speaks of.
    pub fn host(&self) -> &Host
        ensures { result.now ≡ event_host self.now }
    {
        match self {
            TopoEvent::Reply { description, .. } => &description.host,
            TopoEvent::Broken { host, .. } | TopoEvent::Refused { host, .. } => host,
        }
    }

    /// An equal event.
    pub fn copy(&self, alloc: Global) -> Result<TopoEvent, Memory>
        ensures { IfOk result (λ event. event ≡ self.now) }
    {
        match self {
            TopoEvent::Reply {
                description,
                sample,
            } => {
                let description = description.copy(alloc)?;
                Ok(TopoEvent::Reply {
                    description,
                    sample: *sample,
                })
            }
            TopoEvent::Broken { host, generation } => {
                let host = host.copy(alloc)?;
                Ok(TopoEvent::Broken {
                    host,
                    generation: *generation,
                })
            }
            TopoEvent::Refused {
                host,
                version,
                generation,
                shutdown,
            } => {
                let host = host.copy(alloc)?;
                Ok(TopoEvent::Refused {
                    host,
                    version: *version,
                    generation: *generation,
                    shutdown: *shutdown,
                })
            }
        }
    }
}
