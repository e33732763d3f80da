use hello_reply::ServerDescription;
use std::alloc::Global;
use std::sync::Arc;
use topo_rules::TopoKind;

/// The server that a look chose, as the topology had it that the look read.
#[derive(Drop)]
pub struct Selected {
    /// Its number.
    pub host: u32,
    /// The topology's kind.
    pub kind: TopoKind,
    /// Its description, which may be shared with that topology.
    pub server: Arc<ServerDescription, Global>,
    /// The topology's logicalSessionTimeoutMinutes (SDAM, TopologyDescription).
    pub minutes: Option<i64>,
}

/// A selection that goes on.
#[derive(Clone, Copy, Debug, PartialEq, Eq)]
pub struct Selection {
    /// The moment of its first look, in microseconds.
    pub first: u64,
    /// How many hosts had been named at its last look that found none.
    pub known: usize,
}
