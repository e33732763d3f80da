use crate::{ServerKind, Tag};
use bson_doc::{Oid, Rows, Text, TopologyVersion};
use host_name::Host;

/// What is known of a server (SDAM, ServerDescription).
///
/// Every field but `host` and `mean` is what the server's last hello reply says.
#[derive(Debug, Drop)]
pub struct ServerDescription {
    /// The name and port by which the client knows the server.
    pub host: Host,
    /// What kind of server it is.
    pub kind: ServerKind,
    /// setName, the name of its replica set.
    pub set_name: Option<Text>,
    /// setVersion, the version of the set's configuration.
    pub set_version: Option<i64>,
    /// electionId, of a primary.
    pub election: Option<Oid>,
    /// primary, the member that the server takes for the primary.
    pub primary: Option<Host>,
    /// me, the server's own name in the set's configuration.
    pub me: Option<Host>,
    /// hosts, passives and arbiters, one list after the other; each host stands where it comes first, and once. At most
    /// 1,000.
    pub listed: Rows<Host>,
    /// tags, in the reply's order.
    pub tags: Rows<Tag>,
    /// minWireVersion, 0 where the reply has none.
    pub min_wire: i32,
    /// maxWireVersion, 0 where the reply has none.
    pub max_wire: i32,
    /// logicalSessionTimeoutMinutes.
    pub session_minutes: Option<i64>,
    /// topologyVersion.
    pub version: Option<TopologyVersion>,
    /// maxBsonObjectSize, in bytes, 16,777,216 where the reply has none.
    pub max_doc: u32,
    /// maxMessageSizeBytes, 48,000,000 where the reply has none.
    pub max_message: u32,
    /// maxWriteBatchSize, in documents, 100,000 where the reply has none.
    pub max_batch: u32,
    /// The mean round trip time in microseconds, which no reply tells: none in a description that was just made.
    pub mean: Option<u64>,
}
