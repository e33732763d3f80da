use crate::Document;

/// A server's cluster time (Driver Sessions, gossiping the cluster time).
#[derive(Debug, Drop)]
pub struct ClusterTime {
    /// The timestamp `clusterTime` of the document: seconds in the high half, an increment in the low one.
    pub stamp: u64,
    /// The whole `$clusterTime` document as the server sent it, its signature with it.
    pub body: Document,
}
