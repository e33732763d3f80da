use crate::{Request, Step};
use bson_doc::{Lsid, Rows};
use host_name::Host;
use topo_rules::TopoEvent;

/// All that a client did, and what its entries name by place. `specs/Legal.antt` says which trails are legal.
#[derive(Debug, Drop)]
pub struct Trail {
    /// The names of hosts, by their numbers. A host that left and came back has a further number.
    pub names: Rows<Host>,
    /// The events that were offered to the topology, in order.
    pub events: Rows<TopoEvent>,
    /// The ids of the sessions that were made, in order.
    pub sessions: Rows<Lsid>,
    /// The requests that were queued, in order.
    pub requests: Rows<Request>,
    /// The entries, in order.
    pub steps: Rows<Step>,
}
