use bson_doc::Rows;
use host_name::Host;

/// What an event changed.
#[derive(Debug, Drop)]
pub struct Change {
    /// The hosts that came into the topology, in order.
    pub added: Rows<Host>,
    /// The hosts that left it, in order.
    pub removed: Rows<Host>,
    /// The host whose pool is ready.
    pub ready: Option<Host>,
    /// The host whose pool is to be cleared.
    pub clear: Option<Host>,
    /// Whether some description differs, means aside, or the kind, the set name or one of the maxima does.
    pub differs: bool,
}
