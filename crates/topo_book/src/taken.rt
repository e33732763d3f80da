use bson_doc::TopologyVersion;
use topo_rules::Change;

/// What became of an event that was offered. The first that holds is told, in the order Gone, StaleVersion,
/// StaleGeneration.
#[derive(Debug, Drop)]
pub enum Taken {
    /// The event was taken in, and changed this.
    Accepted(Change),
    /// The topology does not have the event's host.
    Gone,
    /// The event's topology version is behind the one that is kept; of a refusal, or equal to it.
    StaleVersion {
        /// The version that the topology keeps.
        kept: Option<TopologyVersion>,
        /// The version that the event brings.
        came: Option<TopologyVersion>,
    },
    /// The event came by a connection of a generation below the pool's.
    StaleGeneration {
        /// The pool's generation.
        kept: u64,
        /// The connection's generation.
        came: u64,
    },
}
